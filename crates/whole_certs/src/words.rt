//! Which words have a shape, beside which of them are of type `ptr`.
ghost use Rattle.std.specs.Prelude.{◌≡◌, ◌↔◌, IsTrue};
ghost use Rattle.ir_ast.specs.Shapes.{row_at};
ghost use Rattle.layout.specs.PointerRows.{ArePointerRows};
ghost use Rattle.certificate.specs.Alike.{HasWordShapes};
ghost use Rattle.whole_certs.specs.Marked.{is_marked};
ghost use Rattle.whole_certs.specs.Words as spec;

use ir_ast::{Module, Shapes, StructType, shape_at};
use items::Items;
use pools::LayoutId;

/// Whether a place of a row is marked.
pub(crate) fn is_marked(row: &[bool], place: usize) -> bool
    ensures { result ≡ is_marked row.now place }
{
    match row.get(place) {
        Some(mark) => *mark,
        None => false,
    }
}

/// The shapes of a struct's words.
fn shapes_of<'a>(shapes: &'a Shapes, named: &StructType) -> &'a [Option<LayoutId>]
    ensures { result.now ≡ row_at shapes.now.words named.now.name }
{
    match shapes.words.get(named.name.number() as usize) {
        Some(row) => row.as_slice(),
        None => &[],
    }
}

/// Whether a word has a shape where it is of type `ptr`, and only there.
fn word_agrees(row: &[Option<LayoutId>], pointers: &[bool], word: usize) -> bool
    ensures { result ≡ spec.word_agrees row.now pointers.now word }
{
    let shape = shape_at(row, word);
    if is_marked(pointers, word) {
        shape.is_some()
    } else {
        shape.is_none()
    }
}

fn words_agree(row: &[Option<LayoutId>], pointers: &[bool]) -> bool
    ensures { result ≡ spec.words_agree row.now pointers.now }
{
    let count = row.len().max(pointers.len());
    (0..count).all(|word| word_agrees(row, pointers, word))
}

fn struct_agrees(shapes: &Shapes, named: &StructType, pointers: &[bool]) -> bool
    ensures { result ≡ spec.struct_agrees shapes.now named.now pointers.now }
{
    words_agree(shapes_of(shapes, named), pointers)
}

fn each_struct_agrees(shapes: &Shapes, structs: &[StructType], pointers: &[Items<bool>]) -> bool
    ensures { result ≡ spec.structs_agree shapes.now structs.now pointers.now }
{
    structs.iter().zip(pointers.iter()).all(|(named, row)| struct_agrees(
        shapes,
        named,
        row.as_slice(),
    ))
}

/// Whether exactly the words of type `ptr` have a shape, where these rows tell which words are. It takes no memory.
pub(crate) fn has_word_shapes(module: &Module, shapes: &Shapes, pointers: &[Items<bool>]) -> bool
    requires { ArePointerRows «module».now pointers.now }
    ensures { IsTrue result ↔ HasWordShapes «module».now shapes.now }
{
    each_struct_agrees(shapes, module.structs.as_slice(), pointers)
}
