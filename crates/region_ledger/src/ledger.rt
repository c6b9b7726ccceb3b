//! The ledger: made with its passes, called in turns, and closed when the passes are back.
ghost use Rattle.std.specs.Prelude.{◌≡◌, ◌≢◌, ℕ, ◌<◌, ◌++◌, List, [], None, Some, IfOk, IfErr, length, map, Contains, ℤ, slice_get};
ghost use Rattle.std.specs.List.{All, find};
ghost use mathlib.Core.List.{IsPrefix};
ghost use Rattle.turn_cell.specs.Rule.{entries_of};
ghost use Rattle.turn_cell.specs.Passes.{new_pass};
ghost use Rattle.sat_terms.specs.Cubes.{IsCube};
ghost use Rattle.region_book.specs.Machine.{FitsFound, has_number, edit_first, taken_out, kept_part, pass_of};
ghost use Rattle.region_book.specs.Pages.{kept_number};
ghost use Rattle.region_book.specs.Books.{state_of, IsProgress};
ghost use Rattle.region_book.specs.Journalled.{basis_of};
ghost use Rattle.region_ledger.specs.Hands.{subject_of, seen_state, held, IsHandOf, IsFreeHand, holding};
ghost use Rattle.region_ledger.specs.Calls.{IsLegalBook, CallsBook, TakeDoes, TakeAnyDoes, ReportDoes, ReleaseDoes, LookDoes, prefix_taken, holding_any};

use crate::acts::{AskSpent, AskState, GiveBack, HandIn, TakeLowest, TakeNumbered, is_legal};
use crate::turned::Turned;
use prefix_jobs::{Number, Outcome};
use region_book::{Book, Progress, Reported, Taken};
use sat_terms::Cube;
use std::alloc::{AllocError, Global};
use std::sync::Wait;
use turn_cell::TurnCell;

/// A book that is shared.
pub type Ledger = Turned<Book>;

/// The right to call a ledger, one call at a time, under the pass's number.
pub type Pass = turn_cell::Pass<Book>;

impl Turned<Book> {
    /// A ledger of this book, and its passes in the order of their numbers. `Err` comes only for
    /// want of memory, and hands the book back.
    pub fn make(
        alloc: Global,
        book: Book,
        passes: u32,
    ) -> Result<(Ledger, Vec<Pass>), (Book, AllocError)>
        requires passes { book.passes ≡ passes }
        requires empty { book.journal ≡ [] }
        ensures size { IfOk result (λ made. made.0.passes ≡ passes) }
        ensures basis { IfOk result (λ made. made.0.fixed ≡ basis_of book) }
        ensures count { IfOk result (λ made. length made.1.items ≡ passes) }
        ensures passes { IfOk result (λ made. (k : ℕ) → k < passes
            → slice_get made.1.items k ≡ Some (new_pass made.0 k)) }
        ensures free { IfOk result (λ made. All (IsFreeHand made.0) made.1.items) }
        ensures back { IfErr result (λ refused. refused.0 ≡ book) }
    {
        let _subject = book.subject();
        let (cell, passes) = TurnCell::make(alloc, book, passes)?;
        Ok((Turned { cell }, passes))
    }

    /// Takes the prefix of this number, if it is pending and nobody holds it.
    pub fn take<R: Wait>(
        &self,
        rt: &R,
        pass: &mut Pass,
        number: Number,
    ) -> Result<Taken, AllocError>
        requires { IsHandOf self.now pass.old }
        ensures hand { IsHandOf self.now pass.new }
        ensures call { CallsBook self.now pass.old pass.new
            (TakeDoes pass.old.number number result) }
        ensures cube { IfOk result (λ taken. (c : List ℤ) → prefix_taken taken ≡ Some c
            → IsCube (subject_of self.now).shown c) }
        ensures holds { IfOk result (λ taken. held self.now pass.old ≡ []
            → held self.now pass.new ≡ holding pass.old.number number (prefix_taken taken)) }
        ensures unchanged { IfErr result (λ _. held self.now pass.new ≡ held self.now pass.old) }
    {
        self.cell.turn(rt, pass, TakeNumbered { number })
    }

    /// Takes the prefix of the lowest number that nobody holds. None where there is none.
    pub fn take_any<R: Wait>(
        &self,
        rt: &R,
        pass: &mut Pass,
    ) -> Result<Option<(Number, Cube)>, AllocError>
        requires { IsHandOf self.now pass.old }
        ensures hand { IsHandOf self.now pass.new }
        ensures call { CallsBook self.now pass.old pass.new
            (TakeAnyDoes pass.old.number result) }
        ensures cube { IfOk result (λ taken. (n : Number) (c : List ℤ) → taken ≡ Some (n, c)
            → IsCube (subject_of self.now).shown c) }
        ensures holds { IfOk result (λ taken. held self.now pass.old ≡ []
            → held self.now pass.new ≡ holding_any pass.old.number taken) }
        ensures unchanged { IfErr result (λ _. held self.now pass.new ≡ held self.now pass.old) }
    {
        self.cell.turn(rt, pass, TakeLowest)
    }

    /// Reports what the search of a prefix came to, which the pass holds. `Err` comes only for want
    /// of memory, and hands the outcome back.
    pub fn report<R: Wait>(
        &self,
        rt: &R,
        pass: &mut Pass,
        number: Number,
        outcome: Outcome,
    ) -> Result<Reported, (Outcome, AllocError)>
        requires hand { IsHandOf self.now pass.old }
        requires fits { FitsFound (subject_of self.now).formula.clauses (subject_of self.now).shown
            (find (has_number number) (held self.now pass.old)) outcome }
        ensures hand { IsHandOf self.now pass.new }
        ensures call { CallsBook self.now pass.old pass.new
            (ReportDoes pass.old.number number outcome result) }
        ensures kept { IfOk result
            (λ said. said.kept ≡ kept_number said.place outcome outcome.kept) }
        ensures spent { IfOk result (λ said. said.spent ≡ (seen_state self.now pass.new).spent) }
        ensures holds { IfOk result (λ said. held self.now pass.new
            ≡ edit_first (has_number number) taken_out (held self.now pass.old)
            ++ kept_part said.place (length outcome.rest) pass.old.number outcome.kept) }
        ensures unchanged { IfErr result (λ _. held self.now pass.new ≡ held self.now pass.old) }
        ensures back { IfErr result (λ refused. refused.0 ≡ outcome) }
    {
        self.cell.turn(rt, pass, HandIn { number, outcome })
    }

    /// Gives a prefix back that the pass holds. It takes no memory.
    pub fn release<R: Wait>(&self, rt: &R, pass: &mut Pass, number: Number)
        requires hand { IsHandOf self.now pass.old }
        requires held { find (has_number number) (held self.now pass.old) ≢ None }
        ensures hand { IsHandOf self.now pass.new }
        ensures call { CallsBook self.now pass.old pass.new (ReleaseDoes pass.old.number number) }
        ensures holds { held self.now pass.new
            ≡ edit_first (has_number number) taken_out (held self.now pass.old) }
    {
        self.cell.turn(rt, pass, GiveBack { number })
    }

    /// What is left to be done, at the turn of the call.
    pub fn state<R: Wait>(&self, rt: &R, pass: &mut Pass) -> Progress
        requires { IsHandOf self.now pass.old }
        ensures hand { IsHandOf self.now pass.new }
        ensures call { CallsBook self.now pass.old pass.new LookDoes }
        ensures progress { IsProgress (seen_state self.now pass.new).pending result }
        ensures holds { held self.now pass.new ≡ held self.now pass.old }
    {
        self.cell.turn(rt, pass, AskState)
    }

    /// How many leaves were reported in all, at the turn of the call; the number stands still at
    /// 2^62.
    pub fn spent<R: Wait>(&self, rt: &R, pass: &mut Pass) -> u64
        requires { IsHandOf self.now pass.old }
        ensures hand { IsHandOf self.now pass.new }
        ensures call { CallsBook self.now pass.old pass.new LookDoes }
        ensures spent { result ≡ (seen_state self.now pass.new).spent }
        ensures holds { held self.now pass.new ≡ held self.now pass.old }
    {
        self.cell.turn(rt, pass, AskSpent)
    }

    /// The book, once all passes of the ledger are back, in any order, and none holds a prefix.
    pub fn close(self, passes: Vec<Pass>) -> Book
        requires free { All (IsFreeHand self) passes.items }
        requires all { length passes.items ≡ self.passes }
        ensures basis { basis_of result ≡ self.fixed }
        ensures legal { IsLegalBook result }
        ensures seen { All (λ p. IsPrefix p.seen result.journal) passes.items }
        ensures own { All (λ p. entries_of pass_of p.number result.journal ≡ p.own) passes.items }
        ensures entries { All (λ e. Contains (map (λ p. p.number) passes.items) (pass_of e))
            result.journal }
        ensures unheld { All (λ q. q.holder ≡ None) (state_of result).pending }
    {
        let book = self.into_cell().close(passes);
        is_legal(&book);
        book
    }
}
