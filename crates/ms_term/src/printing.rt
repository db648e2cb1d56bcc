// The text of a term of a table.
ghost use Rattle.std.specs.Prelude.{◌≡◌, ◌*◌, ◌<◌, [], ◌∷◌, ◌++◌, length, map, reverse, OnOk, OnErr};
ghost use Rattle.ms_tree.specs.Size.{tree_size};
ghost use Rattle.ms_tree.specs.Tree.{function};
ghost use Rattle.ms_tree.specs.Text.{tree_text};
ghost use Rattle.ms_term.specs.Fronts.{AppendsFront};
ghost use Rattle.ms_term.specs.Pieces.{IsBegun, piece_text, piece_size, PieceBelow, PiecesBelow};
ghost use Rattle.ms_term.specs.Terms.{term_at, terms_at, AllBelow};

use crate::shape::Shape;
use crate::term_id::TermId;
use crate::terms::Terms;
use crate::text::{Closing, closing_of, end_without_arguments, print_number, print_string};
use ms_base::memory::OutOfMemory;

/// What is still to be printed.
#[derive(Clone, Copy)]
pub(crate) enum Piece {
    Term(TermId),
    /// A term after a `,`.
    Next(TermId),
    /// What ends the text of a function.
    Closing(Closing),
}

impl Terms {
    /// Appends the text of a term, however deep it is. After want of memory a front of the text has been appended.
    pub fn print(&self, t: TermId, into: &mut Vec<u8>) -> Result<(), OutOfMemory>
        requires { t < length self.now }
        ensures ok { OnOk result (into.new.items ≡ into.old.items ++ tree_text (term_at self.now t)) }
        ensures err { OnErr result (AppendsFront into.old.items into.new.items (tree_text (term_at self.now t))) }
    {
        let mut pieces = Vec::new(self.alloc());
        pieces.push(Piece::Term(t))?;
        while let Some(piece) = pieces.pop() {
            self.print_piece(piece, &mut pieces, into)?;
        }
        Ok(())
    }

    // Prints a front of a piece, and puts what remains of it on the pieces.
    fn print_piece(
        &self,
        piece: Piece,
        pieces: &mut Vec<Piece>,
        into: &mut Vec<u8>,
    ) -> Result<(), OutOfMemory>
        requires within { PieceBelow (length self.now) piece }
        requires below { PiecesBelow (length self.now) pieces.old.items }
        ensures ok { OnOk result (IsBegun self.now (piece_text self.now piece) (piece_size self.now piece) pieces.old.items pieces.new.items into.old.items into.new.items) }
        ensures err { OnErr result (AppendsFront into.old.items into.new.items (piece_text self.now piece)) }
    {
        match piece {
            Piece::Term(t) => self.print_top(t, pieces, into)?,
            Piece::Next(t) => {
                into.push(b',')?;
                self.print_top(t, pieces, into)?;
            }
            Piece::Closing(closing) => into.extend_from_slice(closing.bytes())?,
        }
        Ok(())
    }

    // Prints what stands before the arguments of a term, and puts these on the pieces.
    fn print_top(
        &self,
        t: TermId,
        pieces: &mut Vec<Piece>,
        into: &mut Vec<u8>,
    ) -> Result<(), OutOfMemory>
        requires within { t < length self.now }
        requires below { PiecesBelow (length self.now) pieces.old.items }
        ensures ok { OnOk result (IsBegun self.now (tree_text (term_at self.now t)) (2 * tree_size (term_at self.now t)) pieces.old.items pieces.new.items into.old.items into.new.items) }
        ensures err { OnErr result (AppendsFront into.old.items into.new.items (tree_text (term_at self.now t))) }
    {
        match self.shape(t) {
            Shape::Number(n) => print_number(n, into)?,
            Shape::Text(bytes) => print_string(bytes, into)?,
            Shape::Function {
                name,
                arguments,
                ..
            } => self.print_name(name, arguments, pieces, into)?,
        }
        Ok(())
    }

    fn print_name(
        &self,
        name: &[u8],
        arguments: &[TermId],
        pieces: &mut Vec<Piece>,
        into: &mut Vec<u8>,
    ) -> Result<(), OutOfMemory>
        requires within { AllBelow (length self.now) arguments.now }
        requires below { PiecesBelow (length self.now) pieces.old.items }
        ensures ok { let t = function name.now (terms_at self.now arguments.now) in OnOk result (IsBegun self.now (tree_text t) (2 * tree_size t) pieces.old.items pieces.new.items into.old.items into.new.items) }
        ensures err { OnErr result (AppendsFront into.old.items into.new.items (tree_text (function name.now (terms_at self.now arguments.now)))) }
    {
        into.extend_from_slice(name)?;
        let [first, after @ ..] = arguments else {
            into.extend_from_slice(end_without_arguments(name))?;
            return Ok(());
        };
        into.push(b'(')?;
        push_arguments(*first, after, closing_of(name, after), pieces)
    }
}

// Puts the arguments of a function and what ends its text on the pieces, the last one first.
fn push_arguments(
    first: TermId,
    after: &[TermId],
    closing: Closing,
    pieces: &mut Vec<Piece>,
) -> Result<(), OutOfMemory>
    ensures { OnOk result (pieces.new.items ≡ pieces.old.items ++ Piece.Closing closing ∷ (map Piece.Next (reverse after.now) ++ Piece.Term first ∷ [])) }
{
    pieces.push(Piece::Closing(closing))?;
    push_next(after, pieces)?;
    pieces.push(Piece::Term(first))?;
    Ok(())
}

// Puts arguments after the first on the pieces, the last one first.
fn push_next(arguments: &[TermId], pieces: &mut Vec<Piece>) -> Result<(), OutOfMemory>
    ensures { OnOk result (pieces.new.items ≡ pieces.old.items ++ map Piece.Next (reverse arguments.now)) }
{
    for argument in arguments.iter().rev() {
        pieces.push(Piece::Next(*argument))?;
    }
    Ok(())
}
