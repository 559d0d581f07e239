// Tests of the register: its limits, its refusals, strikes, and going on after it is reopened.

#![tactic(auto)]

#[cfg(test)]
mod tests {
    use automata::measure::Measure;
    use automata::reading_count::ReadingCount;
    use automata::row::Row;
    use refusals::refusal::RegisterRefusal;
    use register::open::Open;
    use register::sealed::Sealed;
    use std::test::Fail;
    use tickets::checked::CheckedTicket;

    #[test]
    fn points_limit(rt: HostRuntime) -> Result<(), Fail> {
        let mut rows = [Row::default(); 2048];
        Open::check(&rows)?;
        let mut open = Open::blank(&mut rows);
        let form = open.form(0)?;
        let state = open.state()?;
        assert_eq!(rt; open.row(state, form, 1000, &[]), Ok(0));
        assert_eq!(rt;
            open.row(state, form, 1001, &[]),
            Err(RegisterRefusal::HighPoints)
        );
        Ok(())
    }

    #[test]
    fn rows_limit(rt: HostRuntime) -> Result<(), Fail> {
        let mut rows = [Row::default(); 2048];
        Open::check(&rows)?;
        let mut open = Open::blank(&mut rows);
        let form = open.form(0)?;
        let state = open.state()?;
        for place in 0..32 {
            assert_eq!(rt; open.row(state, form, 1, &[]), Ok(place));
        }
        assert_eq!(rt;
            open.row(state, form, 1, &[]),
            Err(RegisterRefusal::FullState)
        );
        Ok(())
    }

    #[test]
    fn forms_and_states_limit(rt: HostRuntime) -> Result<(), Fail> {
        let mut rows = [Row::default(); 2048];
        Open::check(&rows)?;
        let mut open = Open::blank(&mut rows);
        for number in 0..64 {
            assert_eq!(rt; open.state(), Ok(number));
        }
        assert_eq!(rt; open.state(), Err(RegisterRefusal::FullStates));
        for number in 0..64 {
            assert_eq!(rt; open.form(4), Ok(number));
        }
        assert_eq!(rt; open.form(4), Err(RegisterRefusal::FullForms));
        assert_eq!(rt; open.form(5), Err(RegisterRefusal::HighArity));
        Ok(())
    }

    #[test]
    fn refusals_alter_nothing(rt: HostRuntime) -> Result<(), Fail> {
        let mut rows = [Row::default(); 2048];
        assert_eq!(rt; Open::check(&rows[..2047]), Err(RegisterRefusal::ShortList));
        Open::check(&rows)?;
        let mut open = Open::blank(&mut rows);
        assert_eq!(rt; open.can_seal(), Err(RegisterRefusal::NoRoot));
        let leaf = open.form(0)?;
        let pair = open.form(2)?;
        let state = open.state()?;
        assert_eq!(rt; open.row(state, leaf, 4, &[]), Ok(0));
        open.root(state)?;
        assert_eq!(rt; open.form(5), Err(RegisterRefusal::HighArity));
        assert_eq!(rt; open.row(1, 2, 1001, &[0]), Err(RegisterRefusal::NoState));
        assert_eq!(rt;
            open.row(state, 2, 1001, &[0]),
            Err(RegisterRefusal::NoForm)
        );
        assert_eq!(rt;
            open.row(state, pair, 1001, &[1]),
            Err(RegisterRefusal::HighPoints)
        );
        assert_eq!(rt;
            open.row(state, pair, 1, &[1]),
            Err(RegisterRefusal::ChildCount)
        );
        assert_eq!(rt;
            open.row(state, pair, 1, &[0, 1]),
            Err(RegisterRefusal::NoChild)
        );
        assert_eq!(rt; open.strike(1, 0), Err(RegisterRefusal::NoState));
        assert_eq!(rt; open.strike(state, 1), Err(RegisterRefusal::NoRow));
        assert_eq!(rt; open.root(1), Err(RegisterRefusal::NoState));
        open.can_seal()?;
        let sealed = open.seal();
        assert_eq!(rt; sealed.states(), 1);
        assert_eq!(rt; sealed.rows_of(0), 1);
        assert_eq!(rt; sealed.root(), 0);
        assert_eq!(rt; readings_of_leaf(&sealed)?, 1);
        Ok(())
    }

    // How many readings the ticket of the first form has from state 0.
    fn readings_of_leaf(sealed: &Sealed<'_>) -> Result<u16, Fail> {
        let nodes = [0];
        let forms = sealed.forms();
        CheckedTicket::check(&forms, &nodes)?;
        let ticket = CheckedTicket::new(forms, &nodes);
        let mut scratch = [ReadingCount::NONE; 64];
        Ok(sealed.worth(&ticket, 0, &mut scratch)?.count())
    }

    #[test]
    fn struck_sealed_and_reopened(rt: HostRuntime) -> Result<(), Fail> {
        let mut rows = [Row::default(); 2048];
        Open::check(&rows)?;
        let mut open = Open::blank(&mut rows);
        let leaf = open.form(0)?;
        let state = open.state()?;
        assert_eq!(rt; open.row(state, leaf, 1, &[]), Ok(0));
        assert_eq!(rt; open.row(state, leaf, 4, &[]), Ok(1));
        open.strike(state, 0)?;
        open.root(state)?;
        open.can_seal()?;
        let sealed = open.seal();
        assert_eq!(rt; readings_of_leaf(&sealed)?, 1);
        let mut again = sealed.reopen();
        assert_eq!(rt; again.row(state, leaf, 7, &[]), Ok(1));
        let other = again.state()?;
        again.root(other)?;
        again.can_seal()?;
        let sealed = again.seal();
        assert_eq!(rt; sealed.root(), 1);
        assert_eq!(rt; readings_of_leaf(&sealed)?, 2);
        Ok(())
    }
}
