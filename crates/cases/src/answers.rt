// Prints the answer to one case after its label.
use arguments::CallArgs;
use bind::Bound;
use dialect::Dialect;
use forest::RECORD;
use parameters::{Counted, Range};
use std::fmt::Display;
use std::io;
use table::{Refusal, Wanted};

// The jobs: a heading, the table check, a job's node, the bytes of a dialect, and those of the library.
#[derive(Clone, Copy, PartialEq, Eq)]
pub(crate) enum Job {
    Heading,
    Table,
    Node,
    Dialect,
    Call,
    Parameters,
    Target,
    Assignment,
    Type,
    Module,
    Binding,
    Audit,
    Format,
    Parts,
    Namesakes,
}

impl From<u16> for Job {
    // Any other number is that of a heading.
    fn from(number: u16) -> Job {
        match number {
            1 => Job::Table,
            2 => Job::Node,
            3 => Job::Dialect,
            4 => Job::Call,
            5 => Job::Parameters,
            6 => Job::Target,
            7 => Job::Assignment,
            8 => Job::Type,
            9 => Job::Module,
            10 => Job::Binding,
            11 => Job::Audit,
            12 => Job::Format,
            13 => Job::Parts,
            14 => Job::Namesakes,
            _ => Job::Heading,
        }
    }
}

// A request: its job, its parts, the length of the job's buffer and the job's node. `second` is the node of the Def
// for a binding and namesakes, the length of the second buffer for the parts of a format text, and the edition for an
// audit or a type. A format text is in the place of the table, and the words of its parts in the place of the names.
#[derive(Clone, Copy)]
pub(crate) struct Case<'a> {
    pub(crate) job: Job,
    pub(crate) label: &'a [u8],
    pub(crate) table: &'a [u8],
    pub(crate) names: &'a [u8],
    pub(crate) dialect: &'a [u8],
    pub(crate) wanted: Wanted,
    pub(crate) room: usize,
    pub(crate) second: u16,
    pub(crate) node: usize,
}

// The lengths of the buffers.
const MOST_BYTES: usize = 2100;

const MOST_WORDS: usize = 64;

const MOST_TEXT: usize = 64;

// Prints a case's label and its answer.
pub(crate) fn say_case(rt: &impl Print, case: Case) -> io::Result<()> {
    rt.write_all(case.label)?;
    answer(rt, case)?;
    println!(rt)
}

fn answer(rt: &impl Print, case: Case) -> io::Result<()> {
    let Case {
        table,
        names,
        node,
        ..
    } = case;
    match case.job {
        Job::Heading => Ok(()),
        Job::Table => say_check(rt, table, names),
        Job::Node => say_node(rt, table, node, case.wanted),
        Job::Dialect => say_decoded(rt, case.dialect),
        Job::Call => say_call(rt, table, names, node),
        Job::Parameters => say_params(rt, case),
        Job::Target => say_targeted(rt, targets::target(table, names, node)),
        Job::Assignment => say_targeted(rt, targets::assignment(table, names, node)),
        Job::Type => say_type(rt, case),
        Job::Module => say_module(rt, case),
        Job::Binding => say_bind(rt, case),
        Job::Audit => say_audit(rt, case),
        Job::Format => say_format(rt, case),
        Job::Parts => say_parts(rt, case),
        Job::Namesakes => say_namesakes(rt, case),
    }
}

// Prints a refusal: its number, its node, its span with the source file, and the earlier node of the same name.
fn say_refusal(rt: &impl Print, r: Refusal) -> io::Result<()> {
    print!(rt; "{}", table::number(r))?;
    let node = table::node_of(r);
    if let Some(i) = node {
        print!(rt; " at {i}")?;
    }
    let extent = table::extent_of(r);
    if let Some(span) = extent {
        print!(rt; " {}-{} in file {}", span.begin, span.end, span.file)?;
    }
    let earlier = table::earlier_of(r);
    if let Some(i) = earlier {
        print!(rt; ", first at {i}")?;
    }
    Ok(())
}

fn say_check(rt: &impl Print, table: &[u8], names: &[u8]) -> io::Result<()> {
    let c = table::check(table, names);
    match c {
        Ok(()) => print!(rt; "sound"),
        Err(r) => say_refusal(rt, r),
    }
}

// The kind of node that a number asks for.
pub(crate) fn wanted_of(number: u16) -> Wanted {
    match number {
        1 => Wanted::Parameters,
        2 => Wanted::Call,
        3 => Wanted::Assignment,
        _ => Wanted::Expression,
    }
}

// Whether a node fits a job: 6, or the number of records of its subtree, and the class and span of the first.
fn say_node(rt: &impl Print, table: &[u8], node: usize, wanted: Wanted) -> io::Result<()> {
    if !table::node_fits(table, node, wanted) {
        return print!(rt; "6");
    }
    let s = table::stretch(table, node);
    let records = s.len() / RECORD;
    let class = table::class(s);
    print!(rt; "stretch of {records}, class {class}, refused as ")?;
    say_refusal(rt, table::refused_at(99, 7, s))
}

// Prints a dialect as its nine numbers.
fn say_dialect(rt: &impl Print, d: Dialect) -> io::Result<()> {
    let numbers = [
        u8::from(d.enable_def),
        u8::from(d.enable_lambda),
        u8::from(d.enable_load),
        u8::from(d.enable_keyword_only_arguments),
        u8::from(d.enable_positional_only_arguments),
        d.enable_types as u8,
        u8::from(d.enable_load_reexport),
        u8::from(d.enable_top_level_stmt),
        u8::from(d.enable_f_strings),
    ];
    for number in numbers {
        print!(rt; "{number}")?;
    }
    Ok(())
}

fn say_decoded(rt: &impl Print, bytes: &[u8]) -> io::Result<()> {
    let d = dialect::from_bytes(bytes);
    match d {
        Some(v) => say_dialect(rt, v),
        None => print!(rt; "5"),
    }
}

fn say_place(rt: &impl Print, p: Option<u32>) -> io::Result<()> {
    match p {
        Some(i) => print!(rt; "{i}"),
        None => print!(rt; "none"),
    }
}

// Prints a list of arguments: the numbers of positional and named ones, and the places of `*` and `**`.
fn say_arguments(rt: &impl Print, a: CallArgs) -> io::Result<()> {
    let star = a.star;
    let star_star = a.star_star;
    print!(rt; "positional {}, named {}, star ", a.num_pos, a.num_named)?;
    say_place(rt, star)?;
    print!(rt; ", kwargs ")?;
    say_place(rt, star_star)
}

fn say_call(rt: &impl Print, table: &[u8], names: &[u8], node: usize) -> io::Result<()> {
    let c = arguments::call(table, names, node);
    match c {
        Ok(a) => say_arguments(rt, a),
        Err(r) => say_refusal(rt, r),
    }
}

// Prints the numbers of a list, each after a space.
fn say_numbers<T: Display>(rt: &impl Print, numbers: &[T]) -> io::Result<()> {
    for number in numbers {
        print!(rt; " {number}")?;
    }
    Ok(())
}

fn say_range(rt: &impl Print, r: Range) -> io::Result<()> {
    print!(rt; " {}..{}", r.from, r.upto)
}

// Prints the five ranges of an accepted list, and its flat count.
fn say_counted(rt: &impl Print, c: Counted) -> io::Result<()> {
    let i = c.indices;
    let n = c.flat as usize;
    print!(rt; "ranges")?;
    say_range(rt, i.pos_only())?;
    say_range(rt, i.pos_or_named())?;
    say_range(rt, i.args_range())?;
    say_range(rt, i.named_only(n))?;
    say_range(rt, i.kwargs_range(n))?;
    print!(rt; ", flat {}", c.flat)
}

// Runs a job with the front of a buffer, whose length the request gives: the job prints its answer, and then the
// buffer at exit is printed under its name. A request for more than the buffer has no answer.
fn say_lent<T: Display, F: FnOnce(&mut [T]) -> io::Result<()>>(
    rt: &impl Print,
    space: &mut [T],
    room: usize,
    name: &str,
    job: F,
) -> io::Result<()>
    requires { F.IsAlwaysCallable job }
{
    let Some(lent) = space.get_mut(..room) else {
        return Ok(());
    };
    job(lent)?;
    print!(rt; ", {name}")?;
    say_numbers(rt, lent)
}

fn say_params(rt: &impl Print, case: Case) -> io::Result<()> {
    let mut space = [9u8; MOST_BYTES];
    say_lent(rt, &mut space, case.room, "modes", |modes| {
        let u = parameters::params(case.table, case.names, case.node, modes);
        match u {
            Ok(c) => say_counted(rt, c),
            Err(r) => say_refusal(rt, r),
        }
    })
}

fn say_targeted(rt: &impl Print, t: Result<u32, Refusal>) -> io::Result<()> {
    match t {
        Ok(n) => print!(rt; "leaves {n}"),
        Err(r) => say_refusal(rt, r),
    }
}

fn say_type(rt: &impl Print, case: Case) -> io::Result<()> {
    let Case {
        table,
        names,
        dialect,
        node,
        ..
    } = case;
    let edition = u32::from(case.second);
    let mut space = [9u8; MOST_BYTES];
    say_lent(rt, &mut space, case.room, "shapes", |shapes| {
        let s = shapes::type_shape(table, names, dialect, edition, node, shapes);
        match s {
            Ok(()) => print!(rt; "accepted"),
            Err(r) => say_refusal(rt, r),
        }
    })
}

fn say_listed(rt: &impl Print, l: Result<u32, Refusal>) -> io::Result<()> {
    match l {
        Ok(n) => print!(rt; "errors {n}"),
        Err(r) => say_refusal(rt, r),
    }
}

fn say_module(rt: &impl Print, case: Case) -> io::Result<()> {
    let mut space = [9u32; MOST_WORDS];
    say_lent(rt, &mut space, case.room, "words", |list| {
        let l = validate::module(case.table, case.names, case.dialect, list);
        say_listed(rt, l)
    })
}

fn say_audit(rt: &impl Print, case: Case) -> io::Result<()> {
    let edition = u32::from(case.second);
    let mut space = [9u32; MOST_WORDS];
    say_lent(rt, &mut space, case.room, "words", |list| {
        let l = audit::audit(case.table, case.names, case.dialect, edition, list);
        say_listed(rt, l)
    })
}

fn say_bind(rt: &impl Print, case: Case) -> io::Result<()> {
    let def = usize::from(case.second);
    let mut space = [9u32; MOST_WORDS];
    say_lent(rt, &mut space, case.room, "words", |list| {
        let b = bind::bind(case.table, case.names, case.node, def, list);
        say_bound(rt, b)
    })
}

fn say_namesakes(rt: &impl Print, case: Case) -> io::Result<()> {
    let def = usize::from(case.second);
    let mut space = [9u32; MOST_WORDS];
    say_lent(rt, &mut space, case.room, "words", |list| {
        let n = namesakes::namesakes(case.table, case.names, case.node, def, list);
        say_named(rt, n)
    })
}

fn say_bound(rt: &impl Print, b: Result<Bound, Refusal>) -> io::Result<()> {
    match b {
        Ok(Bound { flat, many }) => print!(rt; "parameters {flat}, arguments {many}"),
        Err(r) => say_refusal(rt, r),
    }
}

fn say_named(rt: &impl Print, n: Result<u32, Refusal>) -> io::Result<()> {
    match n {
        Ok(count) => print!(rt; "reported {count}"),
        Err(r) => say_refusal(rt, r),
    }
}

fn say_formatted(rt: &impl Print, w: Result<fstring::Written, Refusal>) -> io::Result<()> {
    match w {
        Ok(fstring::Written { length, enabled }) => {
            print!(rt; "bytes {length}")?;
            if !enabled {
                print!(rt; ", notice 62")?;
            }
            Ok(())
        }
        Err(r) => say_refusal(rt, r),
    }
}

// Writes the format text of parts, whose words are given as bytes, at most 14, and prints the buffer at exit. Every
// byte of it is a dot at entry.
fn say_format(rt: &impl Print, case: Case) -> io::Result<()> {
    let mut words = [0u32; 14];
    for (word, bytes) in words.iter_mut().zip(case.names.chunks_exact(4)) {
        *word = fields::word(bytes, 0);
    }
    let Some(parts) = words.get(..case.names.len() / 4) else {
        return Ok(());
    };
    let mut space = [b'.'; MOST_TEXT];
    let Some(text) = space.get_mut(..case.room) else {
        return Ok(());
    };
    let w = fstring::write(parts, case.table, case.dialect, text);
    say_formatted(rt, w)?;
    print!(rt; ", text ")?;
    rt.write_all(text)
}

fn say_reading(rt: &impl Print, r: fstring::Reading) -> io::Result<()> {
    match r {
        fstring::Reading::Accepted { parts, bytes } => print!(rt; "parts {parts}, bytes {bytes}"),
        fstring::Reading::StrayAt(position) => print!(rt; "63 at byte {position}"),
        fstring::Reading::Short => print!(rt; "7"),
    }
}

// Reads the parts of a format text, and prints both buffers at exit. Every word is 9 and every byte is a dot at entry.
fn say_parts(rt: &impl Print, case: Case) -> io::Result<()> {
    let mut space = [9u32; MOST_WORDS];
    let mut more = [b'.'; MOST_TEXT];
    let Some(parts) = space.get_mut(..case.room) else {
        return Ok(());
    };
    let Some(texts) = more.get_mut(..usize::from(case.second)) else {
        return Ok(());
    };
    let r = fstring::read(case.table, parts, texts);
    say_reading(rt, r)?;
    print!(rt; ", words")?;
    say_numbers(rt, parts)?;
    print!(rt; ", texts ")?;
    rt.write_all(texts)
}
