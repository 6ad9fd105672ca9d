ghost use Rattle.std.specs.Prelude.{◌≡◌, IfOk, option_map, false};
ghost use Rattle.rosa_doc.specs.Documents.{is_around as around, is_return_piece as return_piece};
ghost use Rattle.rosa_doc.specs.Refusals.{opens as opening};
ghost use Rattle.rosa_doc.specs.Machine.{Before, Within, After, step, leave, depth_of};
ghost use Rattle.rosa_doc.specs.Frames.{level_of, levels_of};
ghost use Rattle.rosa_doc.specs.Reading.{state_of};

use crate::frame::{Frame, element_of};
use crate::tree::Element;
use field_text::xml::is_xml_space;
use field_text::{Items, NoMemory};
use rosa_pieces::{CharData, Piece};
use std::alloc::Global;

/// How far a document was read.
#[derive(Debug, Drop)]
pub enum Progress {
    /// The root is still to come.
    Before,
    /// The innermost open element, and those round it with the root first.
    Within(Frame, Vec<Frame>),
    /// The root has ended.
    After(Element),
}

/// Whether the piece may stand round the root.
fn is_around(piece: &Piece) -> bool
    ensures { result ≡ around piece.now }
{
    match piece {
        Piece::Comment | Piece::Instruction => true,
        Piece::Data(CharData::Literal(c)) => is_xml_space(*c),
        _ => false,
    }
}

/// Whether an element begins.
pub fn opens(piece: &Piece) -> bool
    ensures { result ≡ opening piece.now }
{
    matches!(piece, Piece::Start(_) | Piece::Empty(_))
}

/// Whether the piece is a carriage return that stands for itself.
pub fn is_return_piece(piece: &Piece) -> bool
    ensures { result ≡ return_piece piece.now }
{
    match piece {
        Piece::Data(data) => data.is_return(),
        _ => false,
    }
}

fn step_before(alloc: Global, piece: Piece) -> Result<Option<Progress>, NoMemory>
    ensures { IfOk result (λ next. option_map state_of next ≡ step Before false piece) }
{
    match piece {
        Piece::Start(tag) => Ok(Some(Progress::Within(Frame::open(alloc, tag), Vec::new(alloc)))),
        Piece::Empty(tag) => Ok(Some(Progress::After(element_of(alloc, &tag, Items::new(alloc))?))),
        piece => {
            if is_around(&piece) {
                Ok(Some(Progress::Before))
            } else {
                Ok(None)
            }
        }
    }
}

/// The innermost element has ended.
fn leave(alloc: Global, element: Element, outer: Vec<Frame>) -> Result<Progress, NoMemory>
    ensures { IfOk result (λ next. state_of next ≡ leave element (levels_of outer.items)) }
{
    let mut outer = outer;
    match outer.pop() {
        Some(frame) => Ok(Progress::Within(frame.with_child(alloc, element)?, outer)),
        None => Ok(Progress::After(element)),
    }
}

fn step_within(
    alloc: Global,
    top: Frame,
    outer: Vec<Frame>,
    after_return: bool,
    piece: Piece,
) -> Result<Option<Progress>, NoMemory>
    ensures { IfOk result (λ next. option_map state_of next
        ≡ step (Within (level_of top) (levels_of outer.items)) after_return piece) }
{
    match piece {
        Piece::Start(tag) => {
            let mut outer = outer;
            outer.push(top)?;
            Ok(Some(Progress::Within(Frame::open(alloc, tag), outer)))
        }
        Piece::Empty(tag) => {
            let element = element_of(alloc, &tag, Items::new(alloc))?;
            Ok(Some(Progress::Within(top.with_child(alloc, element)?, outer)))
        }
        Piece::End(name) => {
            if top.is_named(&name) {
                Ok(Some(leave(alloc, top.close(alloc)?, outer)?))
            } else {
                Ok(None)
            }
        }
        Piece::Comment | Piece::Instruction => Ok(Some(Progress::Within(top, outer))),
        Piece::Data(data) => Ok(Some(Progress::Within(top.with_char(after_return, data)?, outer))),
    }
}

fn step_after(root: Element, piece: &Piece) -> Option<Progress>
    ensures { option_map state_of result ≡ step (After root) false piece.now }
{
    if is_around(piece) {
        Some(Progress::After(root))
    } else {
        None
    }
}

impl Progress {
    /// How many elements are open.
    pub fn depth(&self) -> usize
        ensures { result ≡ depth_of (state_of self.now) }
    {
        match self {
            Progress::Within(_, outer) => outer.len() + 1,
            _ => 0,
        }
    }

    /// The progress behind one more piece, if that can stand here.
    pub fn step(
        self,
        alloc: Global,
        after_return: bool,
        piece: Piece,
    ) -> Result<Option<Progress>, NoMemory>
        ensures { IfOk result (λ next. option_map state_of next ≡ step (state_of self) after_return piece) }
    {
        match self {
            Progress::Before => step_before(alloc, piece),
            Progress::Within(top, outer) => step_within(alloc, top, outer, after_return, piece),
            Progress::After(root) => Ok(step_after(root, &piece)),
        }
    }
}
