// What each refusal says, in words for a person.
ghost use Rattle.std.specs.Prelude.{◌≡◌, Some};
ghost use Rattle.refusals.specs.Words.{words, register_words, pile_words, settle_words, ticket_words, worth_words, search_words, sheet_words};

use crate::refusal::{
    PileRefusal, Refusal, RegisterRefusal, SearchRefusal, SettleRefusal, SheetRefusal,
    TicketRefusal, WorthRefusal,
};
use std::fmt;

impl RegisterRefusal {
    // What was wrong, in words for a person.
    pub fn reason(self) -> &'static str
        ensures { result.now ≡ register_words self }
    {
        match self {
            RegisterRefusal::ShortList => "the list of rows is too short",
            RegisterRefusal::HighArity => "the arity is above 4",
            RegisterRefusal::FullForms => "there are 64 forms already",
            RegisterRefusal::FullStates => "there are 64 states already",
            RegisterRefusal::NoState => "there is no such state",
            RegisterRefusal::NoForm => "there is no such form",
            RegisterRefusal::HighPoints => "the points are above 1,000",
            RegisterRefusal::ChildCount => "the number of children is not the form's arity",
            RegisterRefusal::NoChild => "a child is no state",
            RegisterRefusal::FullState => "the state has 32 rows already",
            RegisterRefusal::NoRow => "there is no row at that place",
            RegisterRefusal::NoRoot => "no root is named",
        }
    }
}

impl fmt::Display for RegisterRefusal {
    ghost output = { λ r. Some (register_words r) };

    fn fmt<W: fmt::Write>(&self, f: &mut fmt::Formatter<W>) -> fmt::Result {
        f.write_str(self.reason())
    }
}

impl PileRefusal {
    // What was wrong, in words for a person.
    pub fn reason(self) -> &'static str
        ensures { result.now ≡ pile_words self }
    {
        match self {
            PileRefusal::ManyStates => "the product has over 1,024 states",
            PileRefusal::ManyPlaces => "the product has over 65,536 places",
            PileRefusal::LadderCount => "the highest level is above 8",
            PileRefusal::LevelCount => "there is not one level for each form",
            PileRefusal::HighLevel => "a level is above the highest one",
            PileRefusal::BarForm => "a form of the bar is not entered",
            PileRefusal::BarPosition => "the position is not below the outer form's arity",
        }
    }
}

impl fmt::Display for PileRefusal {
    ghost output = { λ r. Some (pile_words r) };

    fn fmt<W: fmt::Write>(&self, f: &mut fmt::Formatter<W>) -> fmt::Result {
        f.write_str(self.reason())
    }
}

impl SettleRefusal {
    // What was wrong, in words for a person.
    pub fn reason(self) -> &'static str
        ensures { result.now ≡ settle_words self }
    {
        match self {
            SettleRefusal::HasState => "the target has a state",
            SettleRefusal::ManyReached => "over 64 states are reached",
            SettleRefusal::ManyRows => "a reached state has over 32 rows",
            SettleRefusal::ForeignForm => "a form is not in the target with that arity",
            SettleRefusal::HighRow => "the points of a row are above 1,000",
        }
    }
}

impl fmt::Display for SettleRefusal {
    ghost output = { λ r. Some (settle_words r) };

    fn fmt<W: fmt::Write>(&self, f: &mut fmt::Formatter<W>) -> fmt::Result {
        f.write_str(self.reason())
    }
}

impl TicketRefusal {
    // What was wrong, in words for a person.
    pub fn reason(self) -> &'static str
        ensures { result.now ≡ ticket_words self }
    {
        match self {
            TicketRefusal::Empty => "the ticket has no node",
            TicketRefusal::Long => "the ticket has over 256 nodes",
            TicketRefusal::Unknown(_) => "the form is not known",
            TicketRefusal::Few(_) => "too few children stand before this form",
            TicketRefusal::Many => "the ticket is more than one tree",
        }
    }
}

impl fmt::Display for TicketRefusal {
    ghost output = { λ r. Some (ticket_words r) };

    fn fmt<W: fmt::Write>(&self, f: &mut fmt::Formatter<W>) -> fmt::Result {
        f.write_str(self.reason())
    }
}

impl WorthRefusal {
    // What was wrong, in words for a person.
    pub fn reason(self) -> &'static str
        ensures { result.now ≡ worth_words self }
    {
        match self {
            WorthRefusal::Start => "the start is no state",
            WorthRefusal::Scratch => "the scratch is too short",
        }
    }
}

impl fmt::Display for WorthRefusal {
    ghost output = { λ r. Some (worth_words r) };

    fn fmt<W: fmt::Write>(&self, f: &mut fmt::Formatter<W>) -> fmt::Result {
        f.write_str(self.reason())
    }
}

impl SearchRefusal {
    // What was wrong, in words for a person.
    pub fn reason(self) -> &'static str
        ensures { result.now ≡ search_words self }
    {
        match self {
            SearchRefusal::Start => "the start is no state",
            SearchRefusal::Lines => "the list of lines is too short",
        }
    }
}

impl fmt::Display for SearchRefusal {
    ghost output = { λ r. Some (search_words r) };

    fn fmt<W: fmt::Write>(&self, f: &mut fmt::Formatter<W>) -> fmt::Result {
        f.write_str(self.reason())
    }
}

impl SheetRefusal {
    // What was wrong, in words for a person.
    pub fn reason(self) -> &'static str
        ensures { result.now ≡ sheet_words self }
    {
        match self {
            SheetRefusal::Long => "the sheet has over 32,768 bytes",
            SheetRefusal::Byte => "a byte is no letter, digit, hyphen or tab",
            SheetRefusal::Kind => "the record kind is not known",
            SheetRefusal::Fields => "the number of fields is wrong",
            SheetRefusal::Name => "this is no name of 1 to 16 letters, digits or hyphens",
            SheetRefusal::Number => "this is no number of at most 65,535 without leading zeros",
            SheetRefusal::Given => "the name is given already",
            SheetRefusal::NotGiven => "the name is not given",
            SheetRefusal::Many => "there are too many lines of this kind",
        }
    }
}

impl fmt::Display for SheetRefusal {
    ghost output = { λ r. Some (sheet_words r) };

    fn fmt<W: fmt::Write>(&self, f: &mut fmt::Formatter<W>) -> fmt::Result {
        f.write_str(self.reason())
    }
}

impl Refusal {
    // What was wrong, in words for a person.
    pub fn reason(self) -> &'static str
        ensures { result.now ≡ words self }
    {
        match self {
            Refusal::Register(r) => r.reason(),
            Refusal::Pile(r) => r.reason(),
            Refusal::Settle(r) => r.reason(),
            Refusal::Ticket(r) => r.reason(),
            Refusal::Worth(r) => r.reason(),
            Refusal::Search(r) => r.reason(),
            Refusal::Sheet(r) => r.reason(),
        }
    }
}

impl fmt::Display for Refusal {
    ghost output = { λ r. Some (words r) };

    fn fmt<W: fmt::Write>(&self, f: &mut fmt::Formatter<W>) -> fmt::Result {
        f.write_str(self.reason())
    }
}
