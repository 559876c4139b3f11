// The type job: a type is judged, and the shapes of the nodes that are read are written into a buffer.
#![tactic(auto)]

mod walk;

ghost use Rattle.std.specs.Prelude.{◌≡◌, length};
ghost use Rattle.table.specs.Answer.{is_refused};
ghost use Rattle.types.specs.Jobs.{shaped, type_shape_of};
ghost use Rattle.shapes.specs.Jobs.{shapes_after};

use table::Refusal;

// The type job: whether a node is a type in a dialect and an edition, which is given by its number. If it is, the shape
// of each node that is read as a type or argument is written into the buffer; a refusal changes nothing.
pub fn type_shape(
    table: &[u8],
    names: &[u8],
    dialect: &[u8],
    edition: u32,
    node: usize,
    shapes: &mut [u8],
) -> Result<(), Refusal>
    ensures result_value { shaped result ≡
        type_shape_of table.now names.now dialect.now edition node
        (length shapes.old) }
    ensures shapes_after { shapes.new ≡
        shapes_after table.now names.now dialect.now edition node
        shapes.old }
{
    let judged = types::judge(table, names, dialect, edition, node, shapes.len());
    if is_refused(judged) {
        return judged;
    }
    let t = table::stretch(table, node);
    walk::write(t, 0, shapes);
    judged
}

// Whether an answer is a refusal.
fn is_refused(answer: Result<(), Refusal>) -> bool
    ensures { result ≡ is_refused (shaped answer) }
{
    match answer {
        Ok(()) => false,
        Err(_) => true,
    }
}
