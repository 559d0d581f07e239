// Tests of forms, tickets, refusals, ladder and bar.

#![tactic(auto)]

#[cfg(test)]
mod tests {
    use automata::automaton::Automaton;
    use automata::fewest_points::FewestPoints;
    use automata::measure::Measure;
    use automata::reading_count::ReadingCount;
    use automata::worth::worth;
    use automata::yes_no::YesNo;
    use refusals::refusal::{PileRefusal, Refusal, RegisterRefusal, TicketRefusal};
    use rules::bar::{Bar, Nesting};
    use rules::ladder::Ladder;
    use std::test::Fail;
    use tickets::checked::CheckedTicket;
    use tickets::forms::Forms;

    const LEAF: u16 = 0;

    const PAIR: u16 = 1;

    const THEN: u16 = 2;

    #[test]
    fn form_limits(rt: HostRuntime) {
        assert_eq!(rt; Forms::check(&[0, 4]), Ok(()));
        assert_eq!(rt; Forms::check(&[0, 5]), Err(RegisterRefusal::HighArity));
        assert_eq!(rt; Forms::check(&[0; 64]), Ok(()));
        assert_eq!(rt; Forms::check(&[0; 65]), Err(RegisterRefusal::FullForms));
    }

    // A chain of 256 nodes passes, and one of 257 does not.
    #[test]
    fn long_chains(rt: HostRuntime) -> Result<(), Fail> {
        let arities = [0, 1];
        let forms = Forms::checked(&arities)?;
        let mut chain = [1; 256];
        chain[0] = 0;
        assert_eq!(rt; CheckedTicket::check(&forms, &chain), Ok(()));
        let mut longer = [1; 257];
        longer[0] = 0;
        assert_eq!(rt;
            CheckedTicket::check(&forms, &longer),
            Err(TicketRefusal::Long)
        );
        Ok(())
    }

    #[test]
    fn wide_node(rt: HostRuntime) -> Result<(), Fail> {
        let arities = [0, 4];
        let forms = Forms::checked(&arities)?;
        assert_eq!(rt; CheckedTicket::check(&forms, &[0, 0, 0, 0, 1]), Ok(()));
        assert_eq!(rt;
            CheckedTicket::check(&forms, &[0, 0, 0, 1]),
            Err(TicketRefusal::Few(3))
        );
        Ok(())
    }

    #[test]
    fn ticket_refusals(rt: HostRuntime) -> Result<(), Fail> {
        let arities = [0, 2, 2];
        let forms = Forms::checked(&arities)?;
        assert_eq!(rt;
            CheckedTicket::check(&forms, &[]),
            Err(TicketRefusal::Empty)
        );
        assert_eq!(rt;
            CheckedTicket::check(&forms, &[0, 3]),
            Err(TicketRefusal::Unknown(1))
        );
        assert_eq!(rt;
            CheckedTicket::check(&forms, &[0, 1, 9]),
            Err(TicketRefusal::Few(1))
        );
        assert_eq!(rt;
            CheckedTicket::check(&forms, &[0, 0]),
            Err(TicketRefusal::Many)
        );
        let refusal = Refusal::Ticket(TicketRefusal::Few(1));
        assert_eq!(rt; refusal.number(), 44);
        assert!(rt; refusal.layer() == "ticket");
        Ok(())
    }

    fn below(outer: u16, position: usize, inner: u16) -> Nesting {
        Nesting {
            outer,
            position,
            inner,
        }
    }

    #[test]
    fn rule_refusals(rt: HostRuntime) -> Result<(), Fail> {
        let arities = [0, 2];
        let forms = Forms::checked(&arities)?;
        assert_eq!(rt;
            Ladder::check(&forms, 0, &[0, 0]),
            Err(PileRefusal::LadderCount)
        );
        assert_eq!(rt;
            Ladder::check(&forms, 9, &[0, 0]),
            Err(PileRefusal::LadderCount)
        );
        assert_eq!(rt;
            Ladder::check(&forms, 8, &[0]),
            Err(PileRefusal::LevelCount)
        );
        assert_eq!(rt;
            Ladder::check(&forms, 8, &[0, 9]),
            Err(PileRefusal::HighLevel)
        );
        assert_eq!(rt; Ladder::check(&forms, 8, &[0, 8]), Ok(()));
        assert_eq!(rt;
            Bar::check(&forms, below(2, 0, 0)),
            Err(PileRefusal::BarForm)
        );
        assert_eq!(rt;
            Bar::check(&forms, below(1, 2, 0)),
            Err(PileRefusal::BarPosition)
        );
        assert_eq!(rt; Bar::check(&forms, below(1, 1, 1)), Ok(()));
        Ok(())
    }

    // Whether the automaton's root accepts the ticket.
    fn accepts<A: Automaton>(automaton: &A, ticket: &CheckedTicket<'_, '_>) -> Result<bool, Fail> {
        let mut scratch = [YesNo::NONE; 64];
        let value = worth(automaton, ticket, automaton.root(), &mut scratch)?;
        Ok(value.yes())
    }

    #[test]
    fn ladder_examples(rt: HostRuntime) -> Result<(), Fail> {
        let arities = [0, 2, 2];
        let forms = Forms::checked(&arities)?;
        let levels = [0, 2, 1];
        let ladder = Ladder::checked(forms, 2, &levels)?;
        let up = [LEAF, LEAF, PAIR, LEAF, THEN];
        let ticket = CheckedTicket::checked(forms, &up)?;
        assert!(rt; accepts(&ladder, &ticket)?);
        let down = [LEAF, LEAF, THEN, LEAF, PAIR];
        let ticket = CheckedTicket::checked(forms, &down)?;
        assert!(rt; !accepts(&ladder, &ticket)?);
        Ok(())
    }

    // A bar reaches one step: a pair last in a pair is barred, one below a follow-on there is not.
    #[test]
    fn bar_examples(rt: HostRuntime) -> Result<(), Fail> {
        let arities = [0, 2, 2];
        let forms = Forms::checked(&arities)?;
        let bar = Bar::checked(forms, below(PAIR, 1, PAIR))?;
        let direct = [LEAF, LEAF, LEAF, PAIR, PAIR];
        let ticket = CheckedTicket::checked(forms, &direct)?;
        assert!(rt; !accepts(&bar, &ticket)?);
        let deeper = [LEAF, LEAF, LEAF, PAIR, LEAF, THEN, PAIR];
        let ticket = CheckedTicket::checked(forms, &deeper)?;
        assert!(rt; accepts(&bar, &ticket)?);
        Ok(())
    }

    #[test]
    fn worth_refusals(rt: HostRuntime) -> Result<(), Fail> {
        let arities = [0];
        let forms = Forms::checked(&arities)?;
        let levels = [1];
        let ladder = Ladder::checked(forms, 1, &levels)?;
        let ticket = CheckedTicket::checked(forms, &[0])?;
        let mut none: [ReadingCount; 0] = [];
        assert!(rt; worth(&ladder, &ticket, 0, &mut none).is_err());
        let mut one = [FewestPoints::NONE; 1];
        assert!(rt; worth(&ladder, &ticket, 1, &mut one).is_err());
        assert_eq!(rt; worth(&ladder, &ticket, 0, &mut one)?.points(), 0);
        Ok(())
    }
}
