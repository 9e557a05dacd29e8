//! Conditions and lists of them, which are read by functions that call each other.
ghost use Rattle.std.specs.Prelude.{◌≡◌, ℕ, ◌+◌, ◌-◌, ◌<◌, ◌≤◌, ◌≢◌, Bool, List, length, MatchResult, slice_set};
ghost use Rattle.formulas.specs.Reading.{Awaits, AwaitsList};
ghost use Rattle.reader.specs.Places.{ahead, behind, Reads, FirstIn};
ghost use Rattle.reader.specs.Stores.{SameLoan, Kept, Room};
ghost use Rattle.reader.specs.Read.{Opener, NotOpened, ReadOne, ReadList, joiner};

use crate::cursor::Cursor;
use crate::join::Join;
use crate::nested::Nested;
use crate::store::Store;
use formulas::fault::{Flaw, FormulaFault};
use formulas::node::Node;

impl Join {
    /// The node that joins two others.
    fn node(self, first: u16, rest: u16) -> Node
        ensures { result ≡ joiner self first rest }
    {
        match self {
            Join::All => Node::And(first, rest),
            Join::Any => Node::Or(first, rest),
        }
    }
}

impl<'a> Nested<'a> {
    /// Inside the bracket that a word opens here: one level further in.
    fn opened(self, opening: &[u8]) -> Result<Nested<'a>, FormulaFault>
        requires { Opener opening.now }
        ensures { MatchResult result
            (λ inner. Reads self.entry.at opening.now inner.at × (inner.level ≡ self.entry.level + 1))
            (λ e. NotOpened self.entry.at.text.now.bytes.now self.entry.at.at opening.now self.entry.level e) }
    {
        let inner = self.at.word(opening)?;
        if self.level == 16 {
            return Err(inner.fault(Flaw::Level));
        }
        Ok(Nested {
            at: inner,
            level: self.level + 1,
        })
    }
}

// What is awaited stays a clause: a ghost field could say it only truncated, and `side` takes the fact apart. So does `Room`, which joins a store
// and a place, and `Kept`, which compares what is lent before and after. A place with its level goes by reference, so that no condition copies it.
impl<'a> Store<'a> {
    /// Stores one more node.
    fn push(&mut self, node: Node)
        requires room { self.old.used < length self.old.nodes.now }
        ensures loan { SameLoan self.old self.new }
        ensures used { self.new.used ≡ self.old.used + 1 }
        ensures nodes { self.new.nodes.now ≡ slice_set self.old.nodes.now self.old.used node }
    {
        self.nodes[self.used] = node;
        self.used += 1;
    }

    /// The number of the last node.
    pub(crate) fn last(&self) -> u16
        requires some { 1 ≤ self.now.used }
        ensures { result ≡ self.now.used - 1 }
    {
        (self.used - 1) as u16
    }

    /// Side, relation, side.
    // Never inlined: what a list or a bracket is inside of would hold its frame too.
    #[inline(never)]
    fn comparison<'t>(&mut self, place: &Nested<'t>) -> Result<Cursor<'t>, FormulaFault>
        requires awaits { (o : List Bool) × Awaits o (behind place.now.at) }
        requires plain { (ahead place.now.at ≢ 78) × (ahead place.now.at ≢ 65) × (ahead place.now.at ≢ 79) }
        requires room { Room self.old place.now.at }
        ensures read { MatchResult result (λ end. ReadOne place.now self.old self.new end) (λ e. FirstIn place.now.at e) }
        ensures kept { Kept self.old self.new }
    {
        let (left, after) = place.at.side()?;
        let (by, then) = after.relation()?;
        let (right, end) = then.side()?;
        self.push(Node::Compare(left, by, right));
        Ok(end)
    }

    /// A condition.
    // Always inlined, with its cases as functions of their own: so a list has a condition's end at once, and a small frame.
    #[cycle(condition_conditions)]
    #[inline(always)]
    pub(crate) fn condition<'t>(&mut self, place: &Nested<'t>) -> Result<Cursor<'t>, FormulaFault>
        requires awaits { (o : List Bool) × Awaits o (behind place.now.at) }
        requires room { Room self.old place.now.at }
        ensures read { MatchResult result (λ end. ReadOne place.now self.old self.new end) (λ e. FirstIn place.now.at e) }
        ensures kept { Kept self.old self.new }
    {
        if place.at.sees(b'N') {
            return self.negation(place);
        }
        if place.at.sees(b'A') {
            return self.conjunction(place);
        }
        if place.at.sees(b'O') {
            return self.disjunction(place);
        }
        self.comparison(place)
    }

    /// A negation, whose first letter stands here.
    #[cycle(condition_conditions)]
    fn negation<'t>(&mut self, place: &Nested<'t>) -> Result<Cursor<'t>, FormulaFault>
        requires awaits { (o : List Bool) × Awaits o (behind place.now.at) }
        requires letter { ahead place.now.at ≡ 78 }
        requires room { Room self.old place.now.at }
        ensures read { MatchResult result (λ end. ReadOne place.now self.old self.new end) (λ e. FirstIn place.now.at e) }
        ensures kept { Kept self.old self.new }
    {
        let inner = place.opened(b"NOT(")?;
        let after = self.condition(&inner)?;
        let end = after.expect(b')')?;
        let child = self.last();
        self.push(Node::Not(child));
        Ok(end)
    }

    /// Conditions that all have to hold, where their first letter stands.
    #[cycle(condition_conditions)]
    fn conjunction<'t>(&mut self, place: &Nested<'t>) -> Result<Cursor<'t>, FormulaFault>
        requires awaits { (o : List Bool) × Awaits o (behind place.now.at) }
        requires letter { ahead place.now.at ≡ 65 }
        requires room { Room self.old place.now.at }
        ensures read { MatchResult result (λ end. ReadOne place.now self.old self.new end) (λ e. FirstIn place.now.at e) }
        ensures kept { Kept self.old self.new }
    {
        let inner = place.opened(b"AND(")?;
        self.conditions(&inner, Join::All)
    }

    /// Conditions of which any has to hold, where their first letter stands.
    #[cycle(condition_conditions)]
    fn disjunction<'t>(&mut self, place: &Nested<'t>) -> Result<Cursor<'t>, FormulaFault>
        requires awaits { (o : List Bool) × Awaits o (behind place.now.at) }
        requires letter { ahead place.now.at ≡ 79 }
        requires room { Room self.old place.now.at }
        ensures read { MatchResult result (λ end. ReadOne place.now self.old self.new end) (λ e. FirstIn place.now.at e) }
        ensures kept { Kept self.old self.new }
    {
        let inner = place.opened(b"OR(")?;
        self.conditions(&inner, Join::Any)
    }

    /// A list of conditions and the bracket that closes it.
    #[cycle(condition_conditions)]
    fn conditions<'t>(&mut self, place: &Nested<'t>, join: Join) -> Result<Cursor<'t>, FormulaFault>
        requires awaits { (o : List Bool) × AwaitsList o (behind place.now.at) }
        requires room { Room self.old place.now.at }
        ensures read { MatchResult result (λ end. ReadList place.now join self.old self.new end) (λ e. FirstIn place.now.at e) }
        ensures kept { Kept self.old self.new }
    {
        let after = self.condition(place)?;
        let Some(next) = after.past(b',') else {
            return after.expect(b')');
        };
        let first = self.last();
        let more = Nested {
            at: next,
            level: place.level,
        };
        let end = self.conditions(&more, join)?;
        let rest = self.last();
        self.push(join.node(first, rest));
        Ok(end)
    }
}
