// The C interface: each job returns its number, and writes its values into twelve words of the caller. The crate
// starlark_checks_c exports these functions to C under their names.
#![tactic(auto)]

ghost use Rattle.std.specs.Prelude.{◌≡◌, [], ◌∷◌, ◌+◌, ◌^◌, ◌<◌, length};
ghost use Rattle.table.specs.Answer.{accepted, refused, refusal};
ghost use Rattle.table.specs.Numbers.{stray_brace};
ghost use Rattle.table.specs.Check.{check_of};
ghost use Rattle.parameters.specs.Indices.{values_of};
ghost use Rattle.parameters.specs.Params.{params_of, modes_after};
ghost use Rattle.arguments.specs.Job.{place_values, call_values, call_of};
ghost use Rattle.bind.specs.Job.{bind_of, list_after};
ghost use Rattle.namesakes.specs.Job.{namesakes_of, list_after as reports_after};
ghost use Rattle.targets.specs.Jobs.{target_of, assignment_of};
ghost use Rattle.types.specs.Jobs.{type_shape_of};
ghost use Rattle.shapes.specs.Jobs.{shapes_after};
ghost use Rattle.validate.specs.Job.{module_of, errors_after};
ghost use Rattle.audit.specs.Job.{audit_of, audit_after};
ghost use Rattle.tablefile.specs.Reading.{header_at, content_at};
ghost use Rattle.tablefile.specs.Lending.{into_check, handed};
ghost use Rattle.filepass.specs.Passing.{answer_of, words_after};
ghost use Rattle.writer.specs.Writing.{holding, write_of, file_after};
ghost use Rattle.rescue.specs.Job.{rescue_of, file_after as rescued_after, told};
ghost use Rattle.books.specs.Lookup.{lookup_of, looked};
ghost use Rattle.books.specs.Change.{add_of, zone_added, line_added, remove_of, zone_removed, line_removed, changed};
ghost use Rattle.books.specs.Change.{blank_of, blank_after};
ghost use Rattle.starlark_checks.specs.Words.{number, words, call_words, rescue_words, laid, Fit, place_in};
ghost use Rattle.starlark_checks.specs.Words.{stated_of, stated_word, front_values, edition_values};
ghost use Rattle.starlark_checks.specs.Words.{held_values, read_of, pass_words, PlaceFits};
ghost use Rattle.starlark_checks.specs.Version.{version};
ghost use Rattle.figures.specs.Reporting.{step_of, figures_after, report_of};
ghost use Rattle.starlark_checks.specs.FigureWords.{ending_number, ending_words, step_answer};
ghost use Rattle.fstring.specs.Writing.{write_of as text_of, text_after, notice};
ghost use Rattle.fstring.specs.Reading.{read_of as parts_read, words_after as parts_after, texts_after};
ghost use Rattle.starlark_checks.specs.FormatWords.{two_words, text_words, part_words};

use arguments::CallArgs;
use books::{Changed, Looked};
use figures::Ending;
use parameters::{Counted, Range};
use rescue::Kept;
use table::{Refusal, numbers};

// The version of the library.
const MAJOR: u32 = 0;

const MINOR: u32 = 4;

const PATCH: u32 = 0;

// Writes what a refusal carries, and returns its number.
fn put_refused(r: Refusal, out: &mut [u32; 12]) -> u32
    ensures value { result ≡ number (refusal r) }
    ensures out_after { out.new ≡ laid (words (refusal r)) 0 out.old }
{
    match r {
        Refusal::Bare(n) => n,
        Refusal::Placed { number, node } => {
            out[0] = node;
            number
        }
        Refusal::Spanned {
            number,
            node,
            span,
            earlier,
        } => {
            out[0] = node;
            out[1] = span.begin;
            out[2] = span.end;
            out[3] = place_word(earlier);
            out[4] = span.file;
            number
        }
    }
}

// Writes an accepted answer of one value.
fn put_count(n: u32, out: &mut [u32; 12]) -> u32
    ensures value { result ≡ number (accepted (n ∷ [])) }
    ensures out_after { out.new ≡ laid (words (accepted (n ∷ []))) 0 out.old }
{
    out[0] = n;
    0
}

// Writes an accepted answer of two values.
fn put_two(a: u32, b: u32, out: &mut [u32; 12]) -> u32
    ensures value { result ≡ number (accepted (a ∷ b ∷ [])) }
    ensures out_after { out.new ≡ laid (words (accepted (a ∷ b ∷ []))) 0 out.old }
{
    out[0] = a;
    out[1] = b;
    0
}

// Writes the begin and the end of a range.
fn put_range(r: Range, at: usize, out: &mut [u32; 12])
    requires at_bound { at < 11 }
    requires fit { Fit (r.from ∷ r.upto ∷ []) }
    ensures { out.new ≡ laid (r.from ∷ r.upto ∷ []) at out.old }
{
    out[at] = r.from as u32;
    out[at + 1] = r.upto as u32;
}

// Writes the five ranges and the flat count.
fn put_ranges(c: Counted, out: &mut [u32; 12]) -> u32
    requires { Fit (values_of c) }
    ensures value { result ≡ number (accepted (values_of c)) }
    ensures out_after { out.new ≡ laid (words (accepted (values_of c))) 0 out.old }
{
    let indices = c.indices;
    let flat = c.flat as usize;
    put_range(indices.pos_only(), 0, out);
    put_range(indices.pos_or_named(), 2, out);
    put_range(indices.args_range(), 4, out);
    put_range(indices.named_only(flat), 6, out);
    put_range(indices.kwargs_range(flat), 8, out);
    out[10] = c.flat;
    0
}

// A place among the arguments, in one word.
fn place_word(p: Option<u32>) -> u32
    ensures { result ≡ place_in (place_values p) }
{
    p.unwrap_or(0xFFFF_FFFF)
}

// Writes the numbers of positional and of named arguments, and the places of star and `**`.
fn put_call(a: CallArgs, out: &mut [u32; 12]) -> u32
    ensures value { result ≡ number (accepted (call_values a)) }
    ensures out_after { out.new ≡ laid (call_words (accepted (call_values a))) 0 out.old }
{
    let star = a.star;
    let star_star = a.star_star;
    out[0] = a.num_pos;
    out[1] = a.num_named;
    out[2] = place_word(star);
    out[3] = place_word(star_star);
    0
}

// Writes the counts of a rescue; the number of bytes after the last block is two words, the low one first.
fn put_kept(k: Kept, out: &mut [u32; 12])
    ensures { out.new ≡ laid (rescue_words (accepted (told k))) 0 out.old }
{
    out[0] = k.bytes;
    out[1] = k.statements;
    out[2] = k.nodes;
    out[3] = k.dropped;
    out[4] = (k.after % 4_294_967_296) as u32;
    out[5] = (k.after / 4_294_967_296) as u32;
}

// The edition that a caller states: the word for none means nothing.
fn stated_of(edition: u32) -> Option<u32>
    ensures { result ≡ stated_of edition }
{
    if edition == 0xFFFF_FFFF {
        return None;
    }
    Some(edition)
}

// A stated edition in one word.
fn stated_word(edition: Option<u32>) -> u32
    ensures { result ≡ stated_word edition }
{
    edition.unwrap_or(0xFFFF_FFFF)
}

// Writes the edition that a file states, or the word for none, and the edition that holds.
fn put_edition(edition: Option<u32>, out: &mut [u32; 12])
    ensures { out.new ≡ laid (edition_values edition) 6 out.old }
{
    out[6] = stated_word(edition);
    out[7] = tablefile::edition_number(edition);
}

// Writes the values of a file before its edition: the numbers of nodes and name bytes, whether it has a dialect, and
// the dialect's bytes, four a word.
fn put_front(file: &[u8], out: &mut [u32; 12])
    requires { Fit ((header_at file.now).nodes ∷ (header_at file.now).names ∷ []) }
    ensures { out.new ≡ laid (front_values file.now) 0 out.old }
{
    let h = tablefile::header(file);
    let dialect = tablefile::dialect_bytes(file);
    out[0] = h.nodes as u32;
    out[1] = h.names as u32;
    out[2] = (h.dialect / 9) as u32;
    out[3] = fields::word(dialect, 0);
    out[4] = fields::word(dialect, 4);
    out[5] = fields::word(dialect, 8);
}

// Writes the values of a file.
fn put_held(file: &[u8], out: &mut [u32; 12]) -> u32
    requires { Fit ((header_at file.now).nodes ∷ (header_at file.now).names ∷ []) }
    ensures value { result ≡ number (accepted (held_values file.now)) }
    ensures out_after { out.new ≡
        laid (words (accepted (held_values file.now))) 0 out.old }
{
    put_front(file, out);
    put_edition(tablefile::stated_edition(file), out);
    0
}

// The version of the library: major * 65536 + minor * 256 + patch.
pub fn starlark_version() -> u32
    ensures { result ≡ version }
{
    MAJOR * 65_536 + MINOR * 256 + PATCH
}

// The table check.
pub fn starlark_table(table: &[u8], names: &[u8], out: &mut [u32; 12]) -> u32
    ensures value { result ≡ number (check_of table.now names.now) }
    ensures out_after { out.new ≡
        laid (words (check_of table.now names.now)) 0 out.old }
{
    let answer = table::check(table, names);
    match answer {
        Ok(()) => 0, // a sound table
        Err(r) => put_refused(r, out),
    }
}

// The parameter job: writes begin and end of the five ranges, then the flat count.
pub fn starlark_params(
    table: &[u8],
    names: &[u8],
    node: usize,
    modes: &mut [u8],
    out: &mut [u32; 12],
) -> u32
    ensures value { result ≡
        number (params_of table.now names.now node (length modes.old)) }
    ensures out_after { out.new ≡
        laid (words (params_of table.now names.now node (length modes.old))) 0
        out.old }
    ensures modes_after { modes.new ≡
        modes_after table.now names.now node modes.old }
{
    let answer = parameters::params(table, names, node, modes);
    match answer {
        Ok(c) => put_ranges(c, out),
        Err(r) => put_refused(r, out),
    }
}

// The call job: writes the numbers of positional and named arguments, the place of star and the place of `**`;
// 0xFFFFFFFF is none.
pub fn starlark_call(table: &[u8], names: &[u8], node: usize, out: &mut [u32; 12]) -> u32
    ensures value { result ≡ number (call_of table.now names.now node) }
    ensures out_after { out.new ≡
        laid (call_words (call_of table.now names.now node)) 0 out.old }
{
    let answer = arguments::call(table, names, node);
    match answer {
        Ok(a) => put_call(a, out),
        Err(r) => put_refused(r, out),
    }
}

// The binding job: writes the flat count and the number of arguments, and a word for each argument into the list.
pub fn starlark_bind(
    table: &[u8],
    names: &[u8],
    call: usize,
    def: usize,
    list: &mut [u32],
    out: &mut [u32; 12],
) -> u32
    ensures value { result ≡
        number (bind_of table.now names.now call def (length list.old)) }
    ensures out_after { out.new ≡
        laid (words (bind_of table.now names.now call def (length list.old))) 0
        out.old }
    ensures list_after { list.new ≡
        list_after table.now names.now call def list.old }
{
    let answer = bind::bind(table, names, call, def, list);
    match answer {
        Ok(b) => put_two(b.flat, b.many, out),
        Err(r) => put_refused(r, out),
    }
}

// The namesakes job: writes the number of reported arguments, and four words for each of them into the list.
pub fn starlark_namesakes(
    table: &[u8],
    names: &[u8],
    call: usize,
    def: usize,
    list: &mut [u32],
    out: &mut [u32; 12],
) -> u32
    ensures value { result ≡
        number (namesakes_of table.now names.now call def (length list.old)) }
    ensures out_after { out.new ≡
        laid (words (namesakes_of table.now names.now call def (length list.old))) 0
        out.old }
    ensures list_after { list.new ≡
        reports_after table.now names.now call def list.old }
{
    let answer = namesakes::namesakes(table, names, call, def, list);
    match answer {
        Ok(n) => put_count(n, out),
        Err(r) => put_refused(r, out),
    }
}

// The target job: writes the number of leaves.
pub fn starlark_target(table: &[u8], names: &[u8], node: usize, out: &mut [u32; 12]) -> u32
    ensures value { result ≡ number (target_of table.now names.now node) }
    ensures out_after { out.new ≡
        laid (words (target_of table.now names.now node)) 0 out.old }
{
    let answer = targets::target(table, names, node);
    match answer {
        Ok(n) => put_count(n, out),
        Err(r) => put_refused(r, out),
    }
}

// The assignment job: writes the number of leaves.
pub fn starlark_assignment(table: &[u8], names: &[u8], node: usize, out: &mut [u32; 12]) -> u32
    ensures value { result ≡ number (assignment_of table.now names.now node) }
    ensures out_after { out.new ≡
        laid (words (assignment_of table.now names.now node)) 0 out.old }
{
    let answer = targets::assignment(table, names, node);
    match answer {
        Ok(n) => put_count(n, out),
        Err(r) => put_refused(r, out),
    }
}

// The type job, by the edition of this number: writes the shapes alone.
pub fn starlark_type(
    table: &[u8],
    names: &[u8],
    dialect: &[u8],
    edition: u32,
    node: usize,
    shapes: &mut [u8],
    out: &mut [u32; 12],
) -> u32
    ensures value { result ≡
        number (type_shape_of table.now names.now dialect.now edition node
        (length shapes.old)) }
    ensures out_after { out.new ≡
        laid (words (type_shape_of table.now names.now dialect.now edition node
        (length shapes.old))) 0 out.old }
    ensures shapes_after { shapes.new ≡
        shapes_after table.now names.now dialect.now edition node
        shapes.old }
{
    let answer = shapes::type_shape(table, names, dialect, edition, node, shapes);
    match answer {
        Ok(()) => 0,
        Err(r) => put_refused(r, out),
    }
}

// The module pass: writes the total, and the first errors that fit the list.
pub fn starlark_module(
    table: &[u8],
    names: &[u8],
    dialect: &[u8],
    errors: &mut [u32],
    out: &mut [u32; 12],
) -> u32
    ensures value { result ≡ number (module_of table.now names.now dialect.now) }
    ensures out_after { out.new ≡
        laid (words (module_of table.now names.now dialect.now)) 0
        out.old }
    ensures errors_after { errors.new ≡
        errors_after table.now names.now dialect.now errors.old }
{
    let answer = validate::module(table, names, dialect, errors);
    match answer {
        Ok(n) => put_count(n, out),
        Err(r) => put_refused(r, out),
    }
}

// The audit, with types by the edition of this number: writes the total of what every job refuses on every node that it
// fits, and the first errors that fit the list.
pub fn starlark_audit(
    table: &[u8],
    names: &[u8],
    dialect: &[u8],
    edition: u32,
    errors: &mut [u32],
    out: &mut [u32; 12],
) -> u32
    ensures value { result ≡ number (audit_of table.now names.now dialect.now edition) }
    ensures out_after { out.new ≡
        laid (words (audit_of table.now names.now dialect.now edition)) 0
        out.old }
    ensures errors_after { errors.new ≡
        audit_after table.now names.now dialect.now edition errors.old }
{
    let answer = audit::audit(table, names, dialect, edition, errors);
    match answer {
        Ok(n) => put_count(n, out),
        Err(r) => put_refused(r, out),
    }
}

// Writes a file, with an edition or none, to the front of the buffer, and its number of bytes.
fn write_stated(
    table: &[u8],
    names: &[u8],
    dialect: &[u8],
    edition: Option<u32>,
    file: &mut [u8],
    out: &mut [u32; 12],
) -> u32
    ensures value { result ≡
        number (write_of (holding table.now names.now dialect.now edition)
        (length file.old)) }
    ensures out_after { out.new ≡
        laid (words (write_of (holding table.now names.now dialect.now edition)
        (length file.old))) 0 out.old }
    ensures file_after { file.new ≡
        file_after (holding table.now names.now dialect.now edition)
        file.old }
{
    let answer = writer::write(table, names, dialect, edition, file);
    match answer {
        Ok(n) => put_count(n, out),
        Err(r) => put_refused(r, out),
    }
}

// The writer: writes the file to the front of the buffer, and its number of bytes. 0xFFFFFFFF is no edition.
pub fn starlark_write(
    table: &[u8],
    names: &[u8],
    dialect: &[u8],
    edition: u32,
    file: &mut [u8],
    out: &mut [u32; 12],
) -> u32
    ensures value { result ≡
        number (write_of (holding table.now names.now dialect.now (stated_of edition))
        (length file.old)) }
    ensures out_after { out.new ≡
        laid (words (write_of (holding table.now names.now dialect.now
        (stated_of edition)) (length file.old))) 0 out.old }
    ensures file_after { file.new ≡
        file_after (holding table.now names.now dialect.now (stated_of edition))
        file.old }
{
    write_stated(table, names, dialect, stated_of(edition), file, out)
}

// The rescue: writes the output to the front of the buffer, and the numbers of bytes written, statements kept, nodes
// kept, nodes dropped, and bytes after the last block, low and high word.
pub fn starlark_rescue(input: &[u8], file: &mut [u8], out: &mut [u32; 12]) -> u32
    ensures value { result ≡ number (rescue_of input.now (length file.old)) }
    ensures out_after { out.new ≡
        laid (rescue_words (rescue_of input.now (length file.old))) 0 out.old }
    ensures file_after { file.new ≡ rescued_after input.now file.old }
{
    let answer = rescue::rescue(input, file);
    match answer {
        Ok(k) => {
            put_kept(k, out);
            0
        }
        Err(r) => put_refused(r, out),
    }
}

// The reader: writes table and names to the fronts of two buffers, and the numbers of nodes and name bytes, whether
// there is a dialect, its nine bytes, four a word, the low one first, the stated edition, or 0xFFFFFFFF, and the
// edition that holds.
pub fn starlark_read(file: &[u8], table: &mut [u8], names: &mut [u8], out: &mut [u32; 12]) -> u32
    ensures value { result ≡
        number (read_of file.now (length table.old) (length names.old)) }
    ensures out_after { out.new ≡
        laid (words (read_of file.now (length table.old) (length names.old))) 0
        out.old }
    ensures table_after { table.new ≡
        handed (into_check file.now (length table.old) (length names.old))
        (content_at file.now).table table.old }
    ensures names_after { names.new ≡
        handed (into_check file.now (length table.old) (length names.old))
        (content_at file.now).names names.old }
{
    let answer = tablefile::read_into(file, table, names);
    match answer {
        Ok(()) => put_held(file, out),
        Err(r) => put_refused(r, out),
    }
}

// The check of a file: writes the number of errors, the number of nodes, and the first errors that fit the list.
pub fn starlark_check_file(file: &[u8], errors: &mut [u32], out: &mut [u32; 12]) -> u32
    ensures value { result ≡ number (answer_of file.now) }
    ensures out_after { out.new ≡ laid (pass_words (answer_of file.now)) 0 out.old }
    ensures errors_after { errors.new ≡ words_after file.now errors.old }
{
    let answer = filepass::check_file(file, errors);
    match answer {
        Ok(p) => put_two(p.total, p.nodes, out),
        Err(r) => put_refused(r, out),
    }
}

// Writes a number that may exceed 32 bits as two words from a place on, the low one first.
fn put_wide(n: usize, at: usize, out: &mut [u32; 12])
    requires { at < 11 }
    ensures { out.new ≡ laid (two_words n) at out.old }
{
    out[at] = (n % 4_294_967_296) as u32;
    out[at + 1] = (n / 4_294_967_296) as u32;
}

// 62 if the dialect has no f-strings, else 0.
fn notice_word(enabled: bool) -> u32
    ensures { result ≡ notice enabled }
{
    if enabled {
        return 0;
    }
    numbers::F_STRINGS_DISABLED
}

// Writes the length of a format text, and 62 or 0.
fn put_text(n: usize, enabled: bool, out: &mut [u32; 12]) -> u32
    ensures value { result ≡ number (accepted (n ∷ notice enabled ∷ [])) }
    ensures out_after { out.new ≡ laid (text_words (accepted (n ∷ notice enabled ∷ []))) 0 out.old }
{
    put_wide(n, 0, out);
    out[2] = notice_word(enabled);
    0
}

// Writes the number of parts, and that of their text bytes.
fn put_parts(parts: usize, bytes: usize, out: &mut [u32; 12]) -> u32
    ensures value { result ≡ number (accepted (parts ∷ bytes ∷ [])) }
    ensures out_after { out.new ≡ laid (part_words (accepted (parts ∷ bytes ∷ []))) 0 out.old }
{
    put_wide(parts, 0, out);
    put_wide(bytes, 2, out);
    0
}

// Writes the position of a stray brace.
fn put_stray(position: usize, out: &mut [u32; 12]) -> u32
    ensures value { result ≡ number (refused stray_brace (position ∷ [])) }
    ensures out_after { out.new ≡ laid (part_words (refused stray_brace (position ∷ []))) 0 out.old }
{
    put_wide(position, 0, out);
    numbers::STRAY_BRACE
}

// The writer of format texts: writes the text to the front of the buffer, its length as two words, the low one first,
// and 62 or 0.
pub fn starlark_fstring_write(
    parts: &[u32],
    texts: &[u8],
    dialect: &[u8],
    text: &mut [u8],
    out: &mut [u32; 12],
) -> u32
    ensures value { result ≡
        number (text_of parts.now texts.now dialect.now
        (length text.old)) }
    ensures out_after { out.new ≡
        laid (text_words (text_of parts.now texts.now dialect.now
        (length text.old))) 0 out.old }
    ensures text_after { text.new ≡
        text_after parts.now texts.now dialect.now text.old }
{
    let answer = fstring::write(parts, texts, dialect, text);
    match answer {
        Ok(w) => put_text(w.length, w.enabled, out),
        Err(r) => put_refused(r, out),
    }
}

// The reader of format texts: writes words and texts to the fronts of two buffers, and the numbers of parts and of text
// bytes, each as two words, the low one first. The position of 63 is written so too.
pub fn starlark_fstring_read(
    text: &[u8],
    parts: &mut [u32],
    texts: &mut [u8],
    out: &mut [u32; 12],
) -> u32
    ensures value { result ≡
        number (parts_read text.now (length parts.old) (length texts.old)) }
    ensures out_after { out.new ≡
        laid (part_words (parts_read text.now (length parts.old) (length texts.old))) 0
        out.old }
    ensures parts_after { parts.new ≡
        parts_after text.now parts.old (length texts.old) }
    ensures texts_after { texts.new ≡
        texts_after text.now (length parts.old) texts.old }
{
    let answer = fstring::read(text, parts, texts);
    match answer {
        fstring::Reading::Accepted { parts, bytes } => put_parts(parts, bytes, out),
        fstring::Reading::StrayAt(position) => put_stray(position, out),
        fstring::Reading::Short => numbers::SHORT_BUFFER,
    }
}

// Writes a refusal that carries a book: 0 the zone book, 1 the line book.
fn put_book(n: u32, book: u32, out: &mut [u32; 12]) -> u32
    ensures value { result ≡ number (refused n (book ∷ [])) }
    ensures out_after { out.new ≡ laid (words (refused n (book ∷ []))) 0 out.old }
{
    out[0] = book;
    n
}

// Writes the answer of an addition or a removal, whose place fits a word.
fn put_changed(answer: Changed, out: &mut [u32; 12]) -> u32
    requires { PlaceFits answer }
    ensures value { result ≡ number (changed answer) }
    ensures out_after { out.new ≡ laid (words (changed answer)) 0 out.old }
{
    match answer {
        Changed::Placed(book, place) => put_two(book, place as u32, out),
        Changed::Refused(n, book) => put_book(n, book, out),
        Changed::Bare(n) => n,
    }
}

// The lookup in two books: writes the book, 0 the zone book or 1 the line book, and the position of the nine bytes in
// it.
pub fn starlark_book_lookup(
    zone_book: &[u8],
    line_book: &[u8],
    zone: u32,
    setting: u32,
    out: &mut [u32; 12],
) -> u32
    ensures value { result ≡
        number (looked (lookup_of zone_book.now line_book.now zone setting)) }
    ensures out_after { out.new ≡
        laid (words (looked (lookup_of zone_book.now line_book.now zone setting))) 0
        out.old }
{
    let answer = books::judge_lookup(zone_book, line_book, zone, setting);
    match answer {
        Looked::Zone(at) => put_two(0, at as u32, out),
        Looked::Line(at) => put_two(1, at as u32, out),
        Looked::Refused(n, book) => put_book(n, book, out),
        Looked::Nothing => numbers::NO_ENTRY,
    }
}

// Adds an entry to its book, zone 0 to the line book: writes the book and the place, counted from 0, 21 a block.
pub fn starlark_book_add(
    zone_book: &mut [u8],
    line_book: &mut [u8],
    zone: u32,
    setting: u32,
    dialect: &[u8],
    out: &mut [u32; 12],
) -> u32
    ensures value { result ≡
        number (changed (add_of zone_book.old line_book.old zone setting
        dialect.now)) }
    ensures out_after { out.new ≡
        laid (words (changed (add_of zone_book.old line_book.old zone setting
        dialect.now))) 0 out.old }
    ensures zone_book_after { zone_book.new ≡
        zone_added zone_book.old line_book.old zone setting dialect.now }
    ensures line_book_after { line_book.new ≡
        line_added zone_book.old line_book.old zone setting dialect.now }
{
    let answer = books::add(zone_book, line_book, zone, setting, dialect);
    put_changed(answer, out)
}

// Removes the entry of exactly this zone and setting from its book: writes the book and the place.
pub fn starlark_book_remove(
    zone_book: &mut [u8],
    line_book: &mut [u8],
    zone: u32,
    setting: u32,
    out: &mut [u32; 12],
) -> u32
    ensures value { result ≡
        number (changed (remove_of zone_book.old line_book.old zone setting)) }
    ensures out_after { out.new ≡
        laid (words (changed (remove_of zone_book.old line_book.old zone setting))) 0
        out.old }
    ensures zone_book_after { zone_book.new ≡
        zone_removed zone_book.old line_book.old zone setting }
    ensures line_book_after { line_book.new ≡
        line_removed zone_book.old line_book.old zone setting }
{
    let answer = books::remove(zone_book, line_book, zone, setting);
    put_changed(answer, out)
}

// Makes an empty book of a buffer of 1 to 100 blocks; any other length is 95.
pub fn starlark_book_blank(book: &mut [u8], out: &mut [u32; 12]) -> u32
    ensures value { result ≡ blank_of (length book.old) }
    ensures out_after { out.new ≡ laid [] 0 out.old }
    ensures book_after { book.new ≡ blank_after book.old }
{
    let answer = books::blank(book);
    if answer == 0 {
        return 0;
    }
    numbers::BOOK_UNSOUND
}

// The end of a report: returns 0 or the number of the refused file, and writes its position as two words, the low one
// first.
fn put_ending(ending: Ending, place: usize, out: &mut [u32; 12]) -> u32
    requires { place < 11 }
    ensures value { result ≡ ending_number ending }
    ensures out_after { out.new ≡ laid (ending_words ending) place out.old }
{
    match ending {
        Ending::Whole => 0,
        Ending::Refused { number, at } => {
            put_wide(at, place, out);
            number
        }
    }
}

// The report over files one after another: writes the counters into the buffer, also if a refused file ends it.
pub fn starlark_figures(input: &[u8], figures: &mut [u64; 32], out: &mut [u32; 12]) -> u32
    ensures value { result ≡ ending_number (report_of input.now).ending }
    ensures out_after { out.new ≡
        laid (ending_words (report_of input.now).ending) 0 out.old }
    ensures figures_after { figures.new ≡ (report_of input.now).figures }
{
    let report = figures::report(input);
    let counters = report.figures;
    *figures = counters;
    let ending = report.ending;
    put_ending(ending, 0, out)
}

// Writes the number of bytes that a step takes into the word at a place.
fn put_taken(n: usize, place: usize, out: &mut [u32; 12]) -> u32
    requires place_bound { place < 12 }
    requires n_bound { n < 2 ^ 32 }
    ensures value { result ≡ 0 }
    ensures out_after { out.new ≡ laid (n ∷ []) place out.old }
{
    out[place] = n as u32;
    0
}

// One step: adds the file at the front of a window to the counters, and writes the number of bytes that it takes.
pub fn starlark_figures_step(window: &[u8], figures: &mut [u64; 32], out: &mut [u32; 12]) -> u32
    ensures value { result ≡ number (step_answer (step_of window.now figures.old)) }
    ensures out_after { out.new ≡
        laid (words (step_answer (step_of window.now figures.old))) 0 out.old }
    ensures figures_after { figures.new ≡ figures_after window.now figures.old }
{
    let answer = figures::step(window, figures);
    match answer {
        Ok(n) => put_taken(n, 0, out),
        Err(number) => number,
    }
}
