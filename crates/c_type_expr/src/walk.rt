//! The state of the walk over a program: what stands before, and the first broken rule so far.

ghost use Rattle.std.specs.Prelude.{◌≡◌, ◌∷◌, [], Some, None, false};
ghost use Rattle.c_type_expr.specs.Operators.{complete_target};
ghost use Rattle.c_type_expr.specs.Faults.{rule, broken};
ghost use Rattle.c_type_expr.specs.Least.{earlier};
ghost use Rattle.c_type_expr.specs.Walked.{blamed};

use crate::fault::Fault;
use crate::scopes::Scopes;
use c_ast::{Bytes, Span};
use c_type_base::{Known, LocalInfo, StructInfo, Ty, is_complete};
use sqlite_items::Items;

/// What the walk has found so far.
#[derive(Drop)]
pub struct Walk {
    /// The tags declared so far, in order.
    pub structs: Items<StructInfo>,
    pub scopes: Scopes,
    /// The texts passed, in order.
    pub texts: Items<Bytes>,
    /// The parameters and locals of the function so far.
    pub locals: Items<LocalInfo>,
    /// The result of the function around, where it is known.
    pub result: Option<Ty>,
    /// Whether the include line was passed.
    pub stdio: bool,
    /// The first rule that is broken.
    pub first: Option<Fault>,
}

impl Walk {
    /// Asks a rule of a construct.
    pub fn ask(&mut self, span: Span, number: u8, kept: bool)
        ensures { self.new ≡ blamed self.old (broken span (rule number kept ∷ [])) }
    {
        if !kept {
            self.blame(Fault { number, span });
        }
    }

    /// Asks two rules of a construct, by increasing numbers.
    #[tactic(auto, using(crate::specs::Laws::WalkedLaws::blamed_twice))]
    pub fn ask_both(&mut self, span: Span, number: u8, kept: bool, other: u8, other_kept: bool)
        ensures { self.new ≡ blamed self.old (broken span (rule number kept ∷ rule other other_kept ∷ [])) }
    {
        self.ask(span, number, kept);
        self.ask(span, other, other_kept);
    }

    /// Asks whether the left side of an assignment may change, whether a pointer may be moved so, and whether what it points to is
    /// complete.
    #[tactic(auto, using(crate::specs::Laws::WalkedLaws::blamed_twice))]
    pub fn ask_moved(&mut self, span: Span, changeable: bool, moves: bool, target: &Ty)
        ensures { self.new ≡ blamed self.old (broken span (rule 11 changeable ∷ rule 12 moves ∷ complete_target self.old.structs target.now ∷ [])) }
    {
        self.ask(span, 11, changeable);
        self.ask_then_target(span, 12, moves, target);
    }

    /// Asks a rule of a construct, and then whether what a pointer that is moved points to is complete.
    pub fn ask_then_target(&mut self, span: Span, number: u8, kept: bool, target: &Ty)
        ensures { self.new ≡ blamed self.old (broken span (rule number kept ∷ complete_target self.old.structs target.now ∷ [])) }
    {
        let complete = is_complete(target, self.structs.as_slice());
        self.ask_both(span, number, kept, 15, complete);
    }

    /// No row fits, and the left side may not be one that changes.
    pub fn unchangeable(&mut self, span: Span, changeable: bool) -> Option<Known>
        ensures none { result ≡ None }
        ensures blames { self.new ≡ blamed self.old (broken span (rule 11 changeable ∷ rule 12 false ∷ [])) }
    {
        self.ask_both(span, 11, changeable, 12, false);
        None
    }

    fn blame(&mut self, fault: Fault)
        ensures { self.new ≡ record self.old { first = Some (earlier self.old.first fault) } }
    {
        let earlier = match self.first {
            Some(first) if !fault.comes_before(first) => first,
            _ => fault,
        };
        self.first = Some(earlier);
    }

    /// No row of a table fits the operands.
    pub fn misfit(&mut self, span: Span) -> Option<Known>
        ensures none { result ≡ None }
        ensures blames { self.new ≡ blamed self.old (broken span (rule 12 false ∷ [])) }
    {
        self.ask(span, 12, false);
        None
    }

    /// What a pointer that is moved points to is complete.
    pub fn ask_target(&mut self, span: Span, target: &Ty)
        ensures { self.new ≡ blamed self.old (broken span (complete_target self.old.structs target.now ∷ [])) }
    {
        let complete = is_complete(target, self.structs.as_slice());
        self.ask(span, 15, complete);
    }
}
