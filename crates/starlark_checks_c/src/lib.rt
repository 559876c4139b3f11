// The C interface as a static library: each function calls the function of its name in starlark_checks, and states its
// clauses again. A crate is a library or a static library, so the crates of this repository use starlark_checks itself,
// and C, Python and Rust use this one (include/starlark.h).
#![tactic(auto)]

ghost use Rattle.std.specs.Prelude.{◌≡◌, [], length};
ghost use Rattle.table.specs.Check.{check_of};
ghost use Rattle.parameters.specs.Params.{params_of, modes_after};
ghost use Rattle.arguments.specs.Job.{call_of};
ghost use Rattle.bind.specs.Job.{bind_of, list_after};
ghost use Rattle.namesakes.specs.Job.{namesakes_of, list_after as reports_after};
ghost use Rattle.targets.specs.Jobs.{target_of, assignment_of};
ghost use Rattle.types.specs.Jobs.{type_shape_of};
ghost use Rattle.shapes.specs.Jobs.{shapes_after};
ghost use Rattle.validate.specs.Job.{module_of, errors_after};
ghost use Rattle.audit.specs.Job.{audit_of, audit_after};
ghost use Rattle.tablefile.specs.Reading.{content_at};
ghost use Rattle.tablefile.specs.Lending.{into_check, handed};
ghost use Rattle.filepass.specs.Passing.{answer_of, words_after};
ghost use Rattle.writer.specs.Writing.{holding, write_of, file_after};
ghost use Rattle.rescue.specs.Job.{rescue_of, file_after as rescued_after};
ghost use Rattle.books.specs.Lookup.{lookup_of, looked};
ghost use Rattle.books.specs.Change.{add_of, zone_added, line_added, remove_of, zone_removed, line_removed, changed};
ghost use Rattle.books.specs.Change.{blank_of, blank_after};
ghost use Rattle.starlark_checks.specs.Words.{number, words, call_words, rescue_words, laid};
ghost use Rattle.starlark_checks.specs.Words.{stated_of};
ghost use Rattle.starlark_checks.specs.Words.{read_of, pass_words};
ghost use Rattle.starlark_checks.specs.Version.{version};
ghost use Rattle.figures.specs.Reporting.{step_of, figures_after, report_of};
ghost use Rattle.starlark_checks.specs.FigureWords.{ending_number, ending_words, step_answer};
ghost use Rattle.fstring.specs.Writing.{write_of as text_of, text_after};
ghost use Rattle.fstring.specs.Reading.{read_of as parts_read, words_after as parts_after, texts_after};
ghost use Rattle.starlark_checks.specs.FormatWords.{text_words, part_words};

// The version of the library: major * 65536 + minor * 256 + patch.
#[unsafe(no_mangle)]
pub extern "C" fn starlark_version() -> u32
    ensures { result ≡ version }
{
    starlark_checks::starlark_version()
}

// The table check.
#[unsafe(no_mangle)]
pub extern "C" fn starlark_table(table: &[u8], names: &[u8], out: &mut [u32; 12]) -> u32
    ensures value { result ≡ number (check_of table.now names.now) }
    ensures out_after { out.new ≡
        laid (words (check_of table.now names.now)) 0 out.old }
{
    starlark_checks::starlark_table(table, names, out)
}

// The parameter job: writes begin and end of the five ranges, then the flat count.
#[unsafe(no_mangle)]
pub extern "C" fn starlark_params(
    table: &[u8],
    names: &[u8],
    node: usize,
    modes: &mut [u8],
    out: &mut [u32; 12],
) -> u32
    ensures value { result ≡
        number (params_of table.now names.now node (length modes.old)) }
    ensures out_after { out.new ≡
        laid (words (params_of table.now names.now node (length modes.old))) 0
        out.old }
    ensures modes_after { modes.new ≡
        modes_after table.now names.now node modes.old }
{
    starlark_checks::starlark_params(table, names, node, modes, out)
}

// The call job: writes the numbers of positional and named arguments, the place of star and the place of `**`;
// 0xFFFFFFFF is none.
#[unsafe(no_mangle)]
pub extern "C" fn starlark_call(table: &[u8], names: &[u8], node: usize, out: &mut [u32; 12]) -> u32
    ensures value { result ≡ number (call_of table.now names.now node) }
    ensures out_after { out.new ≡
        laid (call_words (call_of table.now names.now node)) 0 out.old }
{
    starlark_checks::starlark_call(table, names, node, out)
}

// The binding job: writes the flat count and the number of arguments, and a word for each argument into the list.
#[unsafe(no_mangle)]
pub extern "C" fn starlark_bind(
    table: &[u8],
    names: &[u8],
    call: usize,
    def: usize,
    list: &mut [u32],
    out: &mut [u32; 12],
) -> u32
    ensures value { result ≡
        number (bind_of table.now names.now call def (length list.old)) }
    ensures out_after { out.new ≡
        laid (words (bind_of table.now names.now call def (length list.old))) 0
        out.old }
    ensures list_after { list.new ≡
        list_after table.now names.now call def list.old }
{
    starlark_checks::starlark_bind(table, names, call, def, list, out)
}

// The namesakes job: writes the number of reported arguments, and four words for each of them into the list.
#[unsafe(no_mangle)]
pub extern "C" fn starlark_namesakes(
    table: &[u8],
    names: &[u8],
    call: usize,
    def: usize,
    list: &mut [u32],
    out: &mut [u32; 12],
) -> u32
    ensures value { result ≡
        number (namesakes_of table.now names.now call def (length list.old)) }
    ensures out_after { out.new ≡
        laid (words (namesakes_of table.now names.now call def (length list.old))) 0
        out.old }
    ensures list_after { list.new ≡
        reports_after table.now names.now call def list.old }
{
    starlark_checks::starlark_namesakes(table, names, call, def, list, out)
}

// The target job: writes the number of leaves.
#[unsafe(no_mangle)]
pub extern "C" fn starlark_target(
    table: &[u8],
    names: &[u8],
    node: usize,
    out: &mut [u32; 12],
) -> u32
    ensures value { result ≡ number (target_of table.now names.now node) }
    ensures out_after { out.new ≡
        laid (words (target_of table.now names.now node)) 0 out.old }
{
    starlark_checks::starlark_target(table, names, node, out)
}

// The assignment job: writes the number of leaves.
#[unsafe(no_mangle)]
pub extern "C" fn starlark_assignment(
    table: &[u8],
    names: &[u8],
    node: usize,
    out: &mut [u32; 12],
) -> u32
    ensures value { result ≡ number (assignment_of table.now names.now node) }
    ensures out_after { out.new ≡
        laid (words (assignment_of table.now names.now node)) 0 out.old }
{
    starlark_checks::starlark_assignment(table, names, node, out)
}

// The type job, by the edition of this number: writes the shapes alone.
#[unsafe(no_mangle)]
pub extern "C" fn starlark_type(
    table: &[u8],
    names: &[u8],
    dialect: &[u8],
    edition: u32,
    node: usize,
    shapes: &mut [u8],
    out: &mut [u32; 12],
) -> u32
    ensures value { result ≡
        number (type_shape_of table.now names.now dialect.now edition node
        (length shapes.old)) }
    ensures out_after { out.new ≡
        laid (words (type_shape_of table.now names.now dialect.now edition node
        (length shapes.old))) 0 out.old }
    ensures shapes_after { shapes.new ≡
        shapes_after table.now names.now dialect.now edition node
        shapes.old }
{
    starlark_checks::starlark_type(table, names, dialect, edition, node, shapes, out)
}

// The module pass: writes the total, and the first errors that fit the list.
#[unsafe(no_mangle)]
pub extern "C" fn starlark_module(
    table: &[u8],
    names: &[u8],
    dialect: &[u8],
    errors: &mut [u32],
    out: &mut [u32; 12],
) -> u32
    ensures value { result ≡ number (module_of table.now names.now dialect.now) }
    ensures out_after { out.new ≡
        laid (words (module_of table.now names.now dialect.now)) 0
        out.old }
    ensures errors_after { errors.new ≡
        errors_after table.now names.now dialect.now errors.old }
{
    starlark_checks::starlark_module(table, names, dialect, errors, out)
}

// The audit, with types by the edition of this number: writes the total of what every job refuses on every node that it
// fits, and the first errors that fit the list.
#[unsafe(no_mangle)]
pub extern "C" fn starlark_audit(
    table: &[u8],
    names: &[u8],
    dialect: &[u8],
    edition: u32,
    errors: &mut [u32],
    out: &mut [u32; 12],
) -> u32
    ensures value { result ≡ number (audit_of table.now names.now dialect.now edition) }
    ensures out_after { out.new ≡
        laid (words (audit_of table.now names.now dialect.now edition)) 0
        out.old }
    ensures errors_after { errors.new ≡
        audit_after table.now names.now dialect.now edition errors.old }
{
    starlark_checks::starlark_audit(table, names, dialect, edition, errors, out)
}

// The writer: writes the file to the front of the buffer, and its number of bytes. 0xFFFFFFFF is no edition.
#[unsafe(no_mangle)]
pub extern "C" fn starlark_write(
    table: &[u8],
    names: &[u8],
    dialect: &[u8],
    edition: u32,
    file: &mut [u8],
    out: &mut [u32; 12],
) -> u32
    ensures value { result ≡
        number (write_of (holding table.now names.now dialect.now (stated_of edition))
        (length file.old)) }
    ensures out_after { out.new ≡
        laid (words (write_of (holding table.now names.now dialect.now
        (stated_of edition)) (length file.old))) 0 out.old }
    ensures file_after { file.new ≡
        file_after (holding table.now names.now dialect.now (stated_of edition))
        file.old }
{
    starlark_checks::starlark_write(table, names, dialect, edition, file, out)
}

// The rescue: writes the output to the front of the buffer, and the numbers of bytes written, statements kept, nodes
// kept, nodes dropped, and bytes after the last block, low and high word.
#[unsafe(no_mangle)]
pub extern "C" fn starlark_rescue(input: &[u8], file: &mut [u8], out: &mut [u32; 12]) -> u32
    ensures value { result ≡ number (rescue_of input.now (length file.old)) }
    ensures out_after { out.new ≡
        laid (rescue_words (rescue_of input.now (length file.old))) 0 out.old }
    ensures file_after { file.new ≡ rescued_after input.now file.old }
{
    starlark_checks::starlark_rescue(input, file, out)
}

// The reader: writes table and names to the fronts of two buffers, and the numbers of nodes and name bytes, whether
// there is a dialect, its nine bytes, four a word, the low one first, the stated edition, or 0xFFFFFFFF, and the
// edition that holds.
#[unsafe(no_mangle)]
pub extern "C" fn starlark_read(
    file: &[u8],
    table: &mut [u8],
    names: &mut [u8],
    out: &mut [u32; 12],
) -> u32
    ensures value { result ≡
        number (read_of file.now (length table.old) (length names.old)) }
    ensures out_after { out.new ≡
        laid (words (read_of file.now (length table.old) (length names.old))) 0
        out.old }
    ensures table_after { table.new ≡
        handed (into_check file.now (length table.old) (length names.old))
        (content_at file.now).table table.old }
    ensures names_after { names.new ≡
        handed (into_check file.now (length table.old) (length names.old))
        (content_at file.now).names names.old }
{
    starlark_checks::starlark_read(file, table, names, out)
}

// The check of a file: writes the number of errors, the number of nodes, and the first errors that fit the list.
#[unsafe(no_mangle)]
pub extern "C" fn starlark_check_file(file: &[u8], errors: &mut [u32], out: &mut [u32; 12]) -> u32
    ensures value { result ≡ number (answer_of file.now) }
    ensures out_after { out.new ≡ laid (pass_words (answer_of file.now)) 0 out.old }
    ensures errors_after { errors.new ≡ words_after file.now errors.old }
{
    starlark_checks::starlark_check_file(file, errors, out)
}

// The writer of format texts: writes the text to the front of the buffer, its length as two words, the low one first,
// and 62 or 0.
#[unsafe(no_mangle)]
pub extern "C" fn starlark_fstring_write(
    parts: &[u32],
    texts: &[u8],
    dialect: &[u8],
    text: &mut [u8],
    out: &mut [u32; 12],
) -> u32
    ensures value { result ≡
        number (text_of parts.now texts.now dialect.now
        (length text.old)) }
    ensures out_after { out.new ≡
        laid (text_words (text_of parts.now texts.now dialect.now
        (length text.old))) 0 out.old }
    ensures text_after { text.new ≡
        text_after parts.now texts.now dialect.now text.old }
{
    starlark_checks::starlark_fstring_write(parts, texts, dialect, text, out)
}

// The reader of format texts: writes words and texts to the fronts of two buffers, and the numbers of parts and of text
// bytes, each as two words, the low one first. The position of 63 is written so too.
#[unsafe(no_mangle)]
pub extern "C" fn starlark_fstring_read(
    text: &[u8],
    parts: &mut [u32],
    texts: &mut [u8],
    out: &mut [u32; 12],
) -> u32
    ensures value { result ≡
        number (parts_read text.now (length parts.old) (length texts.old)) }
    ensures out_after { out.new ≡
        laid (part_words (parts_read text.now (length parts.old) (length texts.old))) 0
        out.old }
    ensures parts_after { parts.new ≡
        parts_after text.now parts.old (length texts.old) }
    ensures texts_after { texts.new ≡
        texts_after text.now (length parts.old) texts.old }
{
    starlark_checks::starlark_fstring_read(text, parts, texts, out)
}

// The lookup in two books: writes the book, 0 the zone book or 1 the line book, and the position of the nine bytes in
// it.
#[unsafe(no_mangle)]
pub extern "C" fn starlark_book_lookup(
    zone_book: &[u8],
    line_book: &[u8],
    zone: u32,
    setting: u32,
    out: &mut [u32; 12],
) -> u32
    ensures value { result ≡
        number (looked (lookup_of zone_book.now line_book.now zone setting)) }
    ensures out_after { out.new ≡
        laid (words (looked (lookup_of zone_book.now line_book.now zone setting))) 0
        out.old }
{
    starlark_checks::starlark_book_lookup(zone_book, line_book, zone, setting, out)
}

// Adds an entry to its book, zone 0 to the line book: writes the book and the place, counted from 0, 21 a block.
#[unsafe(no_mangle)]
pub extern "C" fn starlark_book_add(
    zone_book: &mut [u8],
    line_book: &mut [u8],
    zone: u32,
    setting: u32,
    dialect: &[u8],
    out: &mut [u32; 12],
) -> u32
    ensures value { result ≡
        number (changed (add_of zone_book.old line_book.old zone setting
        dialect.now)) }
    ensures out_after { out.new ≡
        laid (words (changed (add_of zone_book.old line_book.old zone setting
        dialect.now))) 0 out.old }
    ensures zone_book_after { zone_book.new ≡
        zone_added zone_book.old line_book.old zone setting dialect.now }
    ensures line_book_after { line_book.new ≡
        line_added zone_book.old line_book.old zone setting dialect.now }
{
    starlark_checks::starlark_book_add(zone_book, line_book, zone, setting, dialect, out)
}

// Removes the entry of exactly this zone and setting from its book: writes the book and the place.
#[unsafe(no_mangle)]
pub extern "C" fn starlark_book_remove(
    zone_book: &mut [u8],
    line_book: &mut [u8],
    zone: u32,
    setting: u32,
    out: &mut [u32; 12],
) -> u32
    ensures value { result ≡
        number (changed (remove_of zone_book.old line_book.old zone setting)) }
    ensures out_after { out.new ≡
        laid (words (changed (remove_of zone_book.old line_book.old zone setting))) 0
        out.old }
    ensures zone_book_after { zone_book.new ≡
        zone_removed zone_book.old line_book.old zone setting }
    ensures line_book_after { line_book.new ≡
        line_removed zone_book.old line_book.old zone setting }
{
    starlark_checks::starlark_book_remove(zone_book, line_book, zone, setting, out)
}

// Makes an empty book of a buffer of 1 to 100 blocks; any other length is 95.
#[unsafe(no_mangle)]
pub extern "C" fn starlark_book_blank(book: &mut [u8], out: &mut [u32; 12]) -> u32
    ensures value { result ≡ blank_of (length book.old) }
    ensures out_after { out.new ≡ laid [] 0 out.old }
    ensures book_after { book.new ≡ blank_after book.old }
{
    starlark_checks::starlark_book_blank(book, out)
}

// The report over files one after another: writes the counters into the buffer, also if a refused file ends it.
#[unsafe(no_mangle)]
pub extern "C" fn starlark_figures(
    input: &[u8],
    figures: &mut [u64; 32],
    out: &mut [u32; 12],
) -> u32
    ensures value { result ≡ ending_number (report_of input.now).ending }
    ensures out_after { out.new ≡
        laid (ending_words (report_of input.now).ending) 0 out.old }
    ensures figures_after { figures.new ≡ (report_of input.now).figures }
{
    starlark_checks::starlark_figures(input, figures, out)
}

// One step: adds the file at the front of a window to the counters, and writes the number of bytes that it takes.
#[unsafe(no_mangle)]
pub extern "C" fn starlark_figures_step(
    window: &[u8],
    figures: &mut [u64; 32],
    out: &mut [u32; 12],
) -> u32
    ensures value { result ≡ number (step_answer (step_of window.now figures.old)) }
    ensures out_after { out.new ≡
        laid (words (step_answer (step_of window.now figures.old))) 0 out.old }
    ensures figures_after { figures.new ≡ figures_after window.now figures.old }
{
    starlark_checks::starlark_figures_step(window, figures, out)
}
