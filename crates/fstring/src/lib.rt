// The format text of an f-string: written from parts, and read back into parts.
//
// Ported from fstring_from_parts in src/syntax/grammar_util.rs of starlark_syntax 0.14.2, and changed: the parts are
// lent as words and bytes, the expressions are left out, and there is a reader. Copyright 2018 The Starlark in Rust
// Authors. Copyright (c) Facebook, Inc. and its affiliates. Licensed under Apache-2.0.
#![tactic(auto)]

ghost use Rattle.std.specs.Prelude.{◌≡◌, true, [], ◌∷◌, ◌+◌, ◌*◌, ◌-◌, ◌≤◌, ◌<◌, length};
ghost use Rattle.fields.specs.Over.{over};
ghost use Rattle.table.specs.Answer.{is_refused};
ghost use Rattle.fstring.specs.Parts.{is_brace, escape, escaped, form_of, words_of, texts_of};
ghost use Rattle.fstring.specs.Words.{text_length, sound_part, is_whole, part_of};
ghost use Rattle.fstring.specs.Writing.{text_for, parts_check, write_of, text_after, written};
ghost use Rattle.fstring.specs.Reading.{first_form, read_of, words_after, texts_after, got};
ghost use Rattle.fstring.specs.Reading.{is_stray, parts_in};
ghost use Rattle.fstring.specs.Steps.{leaving, width_of, is_literal, kept, byte_of, form_kind, begun, run_on, ones};
ghost use Rattle.fstring.specs.Steps.{Readable};

use table::{Refusal, numbers};

// The bytes that forms are made of.
const OPENING: u8 = 123;

const CLOSING: u8 = 125;

const BANG: u8 = 33;

const LETTER_R: u8 = 114;

// The kinds of parts: text and repr; 1 and 2 are none and str.
const TEXT: u32 = 0;

const REPR: u32 = 3;

// The largest length of a text part that is read.
const MOST_LENGTH: usize = 4294967295;

// The answer of write: the length of the text and whether the dialect has f-strings, or the refusal.
#[derive(Clone, Copy)]
pub struct Written {
    pub length: usize,
    pub enabled: bool,
}

// The answer of read: the numbers of parts and of text bytes, or the refusal: 63 with its position, or 7.
#[derive(Clone, Copy)]
pub enum Reading {
    Accepted { parts: usize, bytes: usize },
    StrayAt(usize),
    Short,
}

// The form at the start of some bytes.
#[derive(Clone, Copy)]
enum Form {
    Plain(u8),
    Doubled(u8),
    Empty,
    Converted,
    Stray,
}

// Writes the format text of parts into a buffer: 5, then 64, then 7 for a buffer that is shorter than the text. A
// refusal changes no byte, and bytes past the text are unchanged.
pub fn write(
    parts: &[u32],
    texts: &[u8],
    dialect: &[u8],
    text: &mut [u8],
) -> Result<Written, Refusal>
    ensures result_value { written result
        ≡ write_of parts.now texts.now dialect.now (length text.old) }
    ensures text_after { text.new
        ≡ text_after parts.now texts.now dialect.now text.old }
{
    let judged = judge(parts, texts, dialect, text.len());
    if is_refused(judged) {
        return judged;
    }
    write_parts(parts, texts, text);
    judged
}

// The answer of write for a buffer of room bytes: 5, 64, 7, or acceptance.
fn judge(parts: &[u32], texts: &[u8], dialect: &[u8], room: usize) -> Result<Written, Refusal>
    ensures { written result ≡ write_of parts.now texts.now dialect.now room }
{
    let decoded = dialect::from_bytes(dialect);
    match decoded {
        Some(d) => judge_parts(parts, texts, d.enable_f_strings, room),
        None => Err(Refusal::Bare(numbers::BAD_DIALECT)),
    }
}

// 64, then 7, or acceptance.
fn judge_parts(parts: &[u32], texts: &[u8], enabled: bool, room: usize) -> Result<Written, Refusal>
    ensures { written result ≡ parts_check enabled parts.now texts.now room }
{
    if !is_whole(parts, texts.len()) {
        return Err(Refusal::Bare(numbers::BROKEN_PART));
    }
    let behind = room_behind(parts, texts, room);
    match behind {
        Some(left) => Ok(Written {
            length: room - left,
            enabled,
        }),
        None => Err(Refusal::Bare(numbers::SHORT_BUFFER)),
    }
}

// Whether an answer is a refusal.
fn is_refused(answer: Result<Written, Refusal>) -> bool
    ensures { result ≡ is_refused (written answer) }
{
    match answer {
        Ok(_) => false,
        Err(_) => true,
    }
}

// Whether each part is sound and their lengths add up to the number of text bytes, which is counted down.
fn is_whole(parts: &[u32], bytes: usize) -> bool
    ensures { result ≡ is_whole parts.now bytes }
{
    let mut more = bytes;
    for part in parts.chunks_exact(2) {
        let sound = sound_part(part[0], part[1]);
        let n = text_length(part[0], part[1]);
        if !sound {
            return false;
        }
        if more < n {
            return false;
        }
        more -= n;
    }
    (parts.len() % 2 == 0) & (more == 0)
}

// Whether two words are a part.
fn sound_part(kind: u32, n: u32) -> bool
    ensures { result ≡ sound_part kind n }
{
    if kind == TEXT {
        return true;
    }
    (kind <= 3) & (n == 0)
}

// The number of text bytes of a part.
fn text_length(kind: u32, n: u32) -> usize
    ensures { result ≡ text_length kind n }
{
    if kind == TEXT {
        return n as usize;
    }
    0
}

// Whether a byte is a brace.
fn is_brace(c: u8) -> bool
    ensures { result ≡ is_brace c }
{
    (c == OPENING) | (c == CLOSING)
}

// The room left after the format text of parts.
fn room_behind(parts: &[u32], texts: &[u8], room: usize) -> Option<usize>
    requires { is_whole parts.now (length texts.now) ≡ true }
    ensures { result ≡ leaving (length (text_for parts.now texts.now)) room }
{
    let mut more = texts;
    let mut spare = room;
    for part in parts.chunks_exact(2) {
        let n = text_length(part[0], part[1]);
        spare = room_behind_part(part[0], &more[0..n], spare)?;
        more = &more[n..];
    }
    Some(spare)
}

// The room left after a part.
fn room_behind_part(kind: u32, bytes: &[u8], room: usize) -> Option<usize>
    ensures { result ≡ leaving (length (form_of (part_of kind bytes.now))) room }
{
    if kind == TEXT {
        return room_behind_text(bytes, room);
    }
    if kind == REPR {
        return room_less(room, 4);
    }
    room_less(room, 2)
}

// The room left after a number of bytes.
fn room_less(room: usize, n: usize) -> Option<usize>
    ensures { result ≡ leaving n room }
{
    if room < n {
        return None;
    }
    Some(room - n)
}

// The room left after a text with its braces doubled.
fn room_behind_text(bytes: &[u8], room: usize) -> Option<usize>
    ensures { result ≡ leaving (length (escaped bytes.now)) room }
{
    let mut spare = room;
    for c in bytes {
        let n = byte_size(*c);
        if spare < n {
            return None;
        }
        spare -= n;
    }
    Some(spare)
}

// The number of bytes that a byte of text takes.
fn byte_size(c: u8) -> usize
    ensures { result ≡ length (escape c) }
{
    if is_brace(c) {
        return 2;
    }
    1
}

// Writes the format text of parts at the start of a buffer.
fn write_parts(parts: &[u32], texts: &[u8], out: &mut [u8])
    requires { (is_whole parts.now (length texts.now) ≡ true)
        × (length (text_for parts.now texts.now) ≤ length out.old) }
    ensures { out.new ≡ over 0 (text_for parts.now texts.now) out.old }
{
    let mut more = texts;
    let mut at = 0;
    for part in parts.chunks_exact(2) {
        let n = text_length(part[0], part[1]);
        at = write_part(part[0], &more[0..n], at, out);
        more = &more[n..];
    }
}

// Writes a part from a place on, and returns where it ends.
fn write_part(kind: u32, bytes: &[u8], at: usize, out: &mut [u8]) -> usize
    requires { at + length (form_of (part_of kind bytes.now)) ≤ length out.old }
    ensures value { result ≡ at + length (form_of (part_of kind bytes.now)) }
    ensures out_after { out.new ≡ over at (form_of (part_of kind bytes.now)) out.old }
{
    if kind == TEXT {
        return write_text(bytes, at, out);
    }
    if kind == REPR {
        out[at] = OPENING;
        out[at + 1] = BANG;
        out[at + 2] = LETTER_R;
        out[at + 3] = CLOSING;
        return at + 4;
    }
    out[at] = OPENING;
    out[at + 1] = CLOSING;
    at + 2
}

// Writes a text from a place on, with its braces doubled, and returns where it ends.
fn write_text(bytes: &[u8], at: usize, out: &mut [u8]) -> usize
    requires { at + length (escaped bytes.now) ≤ length out.old }
    ensures value { result ≡ at + length (escaped bytes.now) }
    ensures out_after { out.new ≡ over at (escaped bytes.now) out.old }
{
    let mut p = at;
    for c in bytes {
        p = write_byte(*c, p, out);
    }
    p
}

// Writes a byte of text at a place, a brace twice, and returns where it ends.
fn write_byte(c: u8, at: usize, out: &mut [u8]) -> usize
    requires { at + length (escape c) ≤ length out.old }
    ensures value { result ≡ at + length (escape c) }
    ensures out_after { out.new ≡ over at (escape c) out.old }
{
    out[at] = c;
    if is_brace(c) {
        out[at + 1] = c;
        return at + 2;
    }
    at + 1
}

// Reads the parts of a format text into words and bytes: 63 at the first brace of the whole text that starts no form,
// then 7. A refusal changes no buffer, and what is past the parts is unchanged.
pub fn read(text: &[u8], parts: &mut [u32], texts: &mut [u8]) -> Reading
    ensures result_value { got result
        ≡ read_of text.now (length parts.old) (length texts.old) }
    ensures parts_after { parts.new
        ≡ words_after text.now parts.old (length texts.old) }
    ensures texts_after { texts.new
        ≡ texts_after text.now (length parts.old) texts.old }
{
    let answer = judge_text(text, parts.len(), texts.len());
    if is_refusal(answer) {
        return answer;
    }
    read_parts(text, parts, texts);
    answer
}

// Whether an answer of read is a refusal.
fn is_refusal(answer: Reading) -> bool
    ensures { result ≡ is_refused (got answer) }
{
    match answer {
        Reading::Accepted { parts, bytes } => false,
        Reading::StrayAt(_) => true,
        Reading::Short => true,
    }
}

// The answer of read: 63, then 7. The parts, the text bytes and the lengths are counted in one pass, without a buffer.
fn judge_text(text: &[u8], words: usize, room: usize) -> Reading
    ensures { got result ≡ read_of text.now words room }
{
    let mut left = text;
    let mut parts = 0;
    let mut bytes = 0;
    let mut run = 0;
    let mut long = false;
    // Each form says its own width, so that a `for` over pieces of one width does not go over them.
    while 0 < left.len() {
        let form = first_form(left);
        if is_stray(form) {
            return Reading::StrayAt(text.len() - left.len());
        }
        let is_text = is_literal(form);
        parts += begun(is_text, run);
        bytes += ones(is_text);
        run = run_on(is_text, run);
        long = long | (MOST_LENGTH < run);
        left = &left[width(form)..];
    }
    if (words / 2 < parts) | ((room < bytes) | long) {
        return Reading::Short;
    }
    Reading::Accepted {
        parts: parts,
        bytes: bytes,
    }
}

// Writes the parts of a format text and their texts at the start of two buffers, which have room for them.
fn read_parts(text: &[u8], parts: &mut [u32], texts: &mut [u8])
    requires { Readable text.now (length parts.old) (length texts.old) }
    ensures parts_after { parts.new ≡ over 0 (words_of (parts_in 0 text.now)) parts.old }
    ensures texts_after { texts.new ≡ over 0 (texts_of (parts_in 0 text.now)) texts.old }
{
    let mut left = text;
    let mut count = 0;
    let mut bytes = 0;
    let mut run = 0;
    // Each form says its own width, as in `judge_text`.
    while 0 < left.len() {
        let form = first_form(left);
        let is_text = is_literal(form);
        count += begun(is_text, run);
        run = run_on(is_text, run);
        put_pair(form_kind(form), run as u32, count, parts);
        bytes = put_literal(is_text, byte_of(form), bytes, texts);
        left = &left[width(form)..];
    }
}

// Writes the two words of part number count, which is the last so far.
fn put_pair(kind: u32, n: u32, count: usize, words: &mut [u32])
    requires { (1 ≤ count) × (2 * count ≤ length words.old) }
    ensures { words.new ≡ over (2 * count - 2) (kind ∷ n ∷ []) words.old }
{
    let at = 2 * count - 2;
    words[at] = kind;
    words[at + 1] = n;
}

// Writes a byte if it is a byte of text, and returns where it ends.
fn put_literal(is_text: bool, c: u8, at: usize, out: &mut [u8]) -> usize
    requires { at + length (kept is_text c) ≤ length out.old }
    ensures value { result ≡ at + length (kept is_text c) }
    ensures out_after { out.new ≡ over at (kept is_text c) out.old }
{
    if is_text {
        out[at] = c;
        return at + 1;
    }
    at
}

// The byte of a form that is text.
fn byte_of(form: Form) -> u8
    ensures { result ≡ byte_of form }
{
    match form {
        Form::Plain(c) => c,
        Form::Doubled(c) => c,
        Form::Empty => 0,
        Form::Converted => 0,
        Form::Stray => 0,
    }
}

// The form at the start of some bytes, by its first four bytes.
fn first_form(t: &[u8]) -> Form
    ensures { result ≡ first_form t.now }
{
    let a = fields::byte(t, 0);
    if !is_brace(a) {
        return Form::Plain(a);
    }
    let b = fields::byte(t, 1);
    if b == a {
        return Form::Doubled(a);
    }
    if (a == OPENING) & (b == CLOSING) {
        return Form::Empty;
    }
    let c = fields::byte(t, 2);
    let d = fields::byte(t, 3);
    if (a == OPENING) & ((b == BANG) & ((c == LETTER_R) & (d == CLOSING))) {
        return Form::Converted;
    }
    Form::Stray
}

// Whether a form is a brace that starts none of the four.
fn is_stray(form: Form) -> bool
    ensures { result ≡ is_stray form }
{
    match form {
        Form::Plain(_) => false,
        Form::Doubled(_) => false,
        Form::Empty => false,
        Form::Converted => false,
        Form::Stray => true,
    }
}

// Whether a form is a byte of text.
fn is_literal(form: Form) -> bool
    ensures { result ≡ is_literal form }
{
    match form {
        Form::Plain(_) => true,
        Form::Doubled(_) => true,
        Form::Empty => false,
        Form::Converted => false,
        Form::Stray => false,
    }
}

// The number of bytes of a form.
fn width(form: Form) -> usize
    ensures { result ≡ width_of form }
{
    match form {
        Form::Plain(_) => 1,
        Form::Doubled(_) => 2,
        Form::Empty => 2,
        Form::Converted => 4,
        Form::Stray => 1,
    }
}

// The first word of a form's part.
fn form_kind(form: Form) -> u32
    ensures { result ≡ form_kind form }
{
    match form {
        Form::Plain(_) => 0,
        Form::Doubled(_) => 0,
        Form::Empty => 1,
        Form::Converted => 3,
        Form::Stray => 1,
    }
}

// The number of parts (0 or 1) that begin with a form after run bytes of text.
fn begun(is_text: bool, run: usize) -> usize
    ensures { result ≡ begun is_text run }
{
    if is_text {
        if run == 0 {
            return 1;
        }
        return 0;
    }
    1
}

// 1 for a byte of text, else 0.
fn ones(is_text: bool) -> usize
    ensures { result ≡ ones is_text }
{
    if is_text {
        return 1;
    }
    0
}

// The number of neighbouring bytes of text up to and including this form.
fn run_on(is_text: bool, run: usize) -> usize
    requires { run + 1 < 18446744073709551616 }
    ensures { result ≡ run_on is_text run }
{
    if is_text {
        return run + 1;
    }
    0
}
