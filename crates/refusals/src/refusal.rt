// Why a call is refused: for each layer an enum with a case for each reason, and one enum over the layers.
ghost use Rattle.std.specs.Prelude.{◌≡◌};
ghost use Rattle.refusals.specs.declared.refusal.Refusal.TheVariants.{Register, Pile, Settle, Ticket, Worth, Search, Sheet};
ghost use Rattle.refusals.specs.Refusal.{report, ticket_node};

#[derive(Clone, Copy, PartialEq, Eq, Debug)]
pub enum RegisterRefusal {
    // the lent list has under 2,048 rows
    ShortList,
    // an arity above 4
    HighArity,
    // there are 64 forms
    FullForms,
    // there are 64 states
    FullStates,
    // the state is not entered
    NoState,
    // the form is not entered
    NoForm,
    // points above 1,000
    HighPoints,
    // the number of children is not the form's arity
    ChildCount,
    // a child is no entered state
    NoChild,
    // the state has 32 rows
    FullState,
    // there is no row at the place
    NoRow,
    // no root is named
    NoRoot,
}

#[derive(Clone, Copy, PartialEq, Eq, Debug)]
pub enum PileRefusal {
    // a product of over 1,024 states
    ManyStates,
    // a product of over 65,536 places
    ManyPlaces,
    // a ladder of no levels, or of over 8
    LadderCount,
    // not one level for each form
    LevelCount,
    // a level above the ladder's count
    HighLevel,
    // a bar's form is not entered
    BarForm,
    // a bar's position is not below the outer form's arity
    BarPosition,
}

#[derive(Clone, Copy, PartialEq, Eq, Debug)]
pub enum SettleRefusal {
    // the target has a state
    HasState,
    // over 64 states are reached
    ManyReached,
    // a reached state has over 32 rows
    ManyRows,
    // a form is not in the target with that arity
    ForeignForm,
    // a row's points are above 1,000
    HighRow,
}

#[derive(Clone, Copy, PartialEq, Eq, Debug)]
pub enum TicketRefusal {
    // no node
    Empty,
    // over 256 nodes
    Long,
    // the node at this place has an unknown form
    Unknown(usize),
    // fewer trees stand before the node at this place than its form's arity
    Few(usize),
    // more than one tree
    Many,
}

#[derive(Clone, Copy, PartialEq, Eq, Debug)]
pub enum WorthRefusal {
    // the start is not below the number of states
    Start,
    // the scratch has fewer cells than nodes × states
    Scratch,
}

#[derive(Clone, Copy, PartialEq, Eq, Debug)]
pub enum SearchRefusal {
    // the start is not below the number of states
    Start,
    // the list has fewer lines than there are states
    Lines,
}

#[derive(Clone, Copy, PartialEq, Eq, Debug)]
pub enum SheetRefusal {
    // over 32,768 bytes
    Long,
    // a byte that is no letter, digit, hyphen or tab
    Byte,
    // an unknown record kind
    Kind,
    // a wrong number of fields
    Fields,
    // a bad name
    Name,
    // a bad number
    Number,
    // a name that is given already
    Given,
    // a name that is not given
    NotGiven,
    // a ninth B or a 65th T
    Many,
}

#[derive(Clone, Copy, PartialEq, Eq, Debug)]
pub enum Refusal {
    Register(RegisterRefusal),
    Pile(PileRefusal),
    Settle(SettleRefusal),
    Ticket(TicketRefusal),
    Worth(WorthRefusal),
    Search(SearchRefusal),
    Sheet(SheetRefusal),
}

// By hand: the From that a derive writes has no contract, and these say which refusal comes of which.
impl From<RegisterRefusal> for Refusal {
    ghost from_gives = { λ e r. r ≡ Register e };

    fn from(e: RegisterRefusal) -> Refusal {
        Refusal::Register(e)
    }
}

impl From<PileRefusal> for Refusal {
    ghost from_gives = { λ e r. r ≡ Pile e };

    fn from(e: PileRefusal) -> Refusal {
        Refusal::Pile(e)
    }
}

impl From<SettleRefusal> for Refusal {
    ghost from_gives = { λ e r. r ≡ Settle e };

    fn from(e: SettleRefusal) -> Refusal {
        Refusal::Settle(e)
    }
}

impl From<TicketRefusal> for Refusal {
    ghost from_gives = { λ e r. r ≡ Ticket e };

    fn from(e: TicketRefusal) -> Refusal {
        Refusal::Ticket(e)
    }
}

impl From<WorthRefusal> for Refusal {
    ghost from_gives = { λ e r. r ≡ Worth e };

    fn from(e: WorthRefusal) -> Refusal {
        Refusal::Worth(e)
    }
}

impl From<SearchRefusal> for Refusal {
    ghost from_gives = { λ e r. r ≡ Search e };

    fn from(e: SearchRefusal) -> Refusal {
        Refusal::Search(e)
    }
}

impl From<SheetRefusal> for Refusal {
    ghost from_gives = { λ e r. r ≡ Sheet e };

    fn from(e: SheetRefusal) -> Refusal {
        Refusal::Sheet(e)
    }
}

impl TicketRefusal {
    // The place of the refused node, from 0, where the refusal is of a node.
    pub fn node(self) -> Option<usize>
        ensures { result ≡ ticket_node self }
    {
        match self {
            TicketRefusal::Unknown(place) | TicketRefusal::Few(place) => Some(place),
            _ => None,
        }
    }
}

impl Refusal {
    // The word of the layer that refuses.
    pub fn layer(self) -> &'static str
        ensures { result.now ≡ (report self).layer }
    {
        match self {
            Refusal::Register(_) => "register",
            Refusal::Pile(_) => "pile",
            Refusal::Settle(_) => "settle",
            Refusal::Ticket(_) => "ticket",
            Refusal::Worth(_) => "worth",
            Refusal::Search(_) => "search",
            Refusal::Sheet(_) => "sheet",
        }
    }

    // The number of the refusal.
    pub fn number(self) -> u16
        ensures { result ≡ (report self).number }
    {
        match self {
            Refusal::Register(RegisterRefusal::ShortList) => 10,
            Refusal::Register(RegisterRefusal::HighArity) => 11,
            Refusal::Register(RegisterRefusal::FullForms) => 12,
            Refusal::Register(RegisterRefusal::FullStates) => 13,
            Refusal::Register(RegisterRefusal::NoState) => 14,
            Refusal::Register(RegisterRefusal::NoForm) => 15,
            Refusal::Register(RegisterRefusal::HighPoints) => 16,
            Refusal::Register(RegisterRefusal::ChildCount) => 17,
            Refusal::Register(RegisterRefusal::NoChild) => 18,
            Refusal::Register(RegisterRefusal::FullState) => 19,
            Refusal::Register(RegisterRefusal::NoRow) => 20,
            Refusal::Register(RegisterRefusal::NoRoot) => 21,
            Refusal::Pile(PileRefusal::ManyStates) => 22,
            Refusal::Pile(PileRefusal::ManyPlaces) => 23,
            Refusal::Pile(PileRefusal::LadderCount) => 24,
            Refusal::Pile(PileRefusal::LevelCount) => 25,
            Refusal::Pile(PileRefusal::HighLevel) => 26,
            Refusal::Pile(PileRefusal::BarForm) => 27,
            Refusal::Pile(PileRefusal::BarPosition) => 28,
            Refusal::Settle(SettleRefusal::HasState) => 31,
            Refusal::Settle(SettleRefusal::ManyReached) => 32,
            Refusal::Settle(SettleRefusal::ManyRows) => 33,
            Refusal::Settle(SettleRefusal::ForeignForm) => 34,
            Refusal::Settle(SettleRefusal::HighRow) => 35,
            Refusal::Ticket(TicketRefusal::Empty) => 41,
            Refusal::Ticket(TicketRefusal::Long) => 42,
            Refusal::Ticket(TicketRefusal::Unknown(_)) => 43,
            Refusal::Ticket(TicketRefusal::Few(_)) => 44,
            Refusal::Ticket(TicketRefusal::Many) => 45,
            Refusal::Worth(WorthRefusal::Start) => 46,
            Refusal::Worth(WorthRefusal::Scratch) => 47,
            Refusal::Search(SearchRefusal::Start) => 46,
            Refusal::Search(SearchRefusal::Lines) => 48,
            Refusal::Sheet(SheetRefusal::Long) => 51,
            Refusal::Sheet(SheetRefusal::Byte) => 52,
            Refusal::Sheet(SheetRefusal::Kind) => 53,
            Refusal::Sheet(SheetRefusal::Fields) => 54,
            Refusal::Sheet(SheetRefusal::Name) => 55,
            Refusal::Sheet(SheetRefusal::Number) => 56,
            Refusal::Sheet(SheetRefusal::Given) => 57,
            Refusal::Sheet(SheetRefusal::NotGiven) => 58,
            Refusal::Sheet(SheetRefusal::Many) => 59,
        }
    }
}
