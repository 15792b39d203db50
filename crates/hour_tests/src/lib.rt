// Examples of the hour book.
#![tactic(auto)]

#[cfg(test)]
mod tests {
    use hour::book::Book;
    use hour::book::replays::replay;
    use hour::calls::Call;
    use hour::records::Market;
    use std::test::Fail;

    // A hub bus takes eight buses and no ninth; one of the eight can be placed again.
    #[test]
    fn ninth_bus(rt: HostRuntime) {
        let mut book = Book::fresh();
        for bus in 0..8 {
            assert_eq!(rt; book.place(bus, 1, 0), Ok(()));
        }
        assert_eq!(rt;
            book.place(8, 1, 0).map_err(|refusal| refusal.number()),
            Err(4)
        );
        assert_eq!(rt; book.place(7, 1, 2), Ok(()));
    }

    // A run that is replaced gives its seconds back.
    #[test]
    fn replaced_run(rt: HostRuntime) {
        let mut book = Book::fresh();
        assert_eq!(rt; book.enter_run(0, 300, 0, 0), Ok(()));
        assert_eq!(rt; book.enter_run(1, 600, 0, 0), Ok(()));
        assert!(rt; book.enter_run(1, 601, 0, 0).is_err());
        assert_eq!(rt; book.enter_run(0, 299, 0, 0), Ok(()));
        assert_eq!(rt; book.total_seconds(), 899);
    }

    // Under a constraint a bus may be dead that is live in the base case, so its hub bus is counted anew.
    #[test]
    fn out_under_a_constraint(rt: HostRuntime) -> Result<(), Fail> {
        let calls = [
            Call::Place {
                bus: 0,
                hub_bus: 1,
                zone: 0,
            },
            Call::Status {
                bus: 0,
                market: Market::DayAhead,
                live: true,
            },
            Call::Outage {
                constraint: 0,
                bus: 0,
                out: true,
            },
            Call::Post {
                constraint: 0,
                shadow_price: 1_000,
            },
            Call::Outage {
                constraint: 0,
                bus: 0,
                out: true,
            },
        ];
        let replayed = replay(rt.alloc(), &calls)?;
        assert_eq!(rt; replayed.answers.len(), 5);
        assert!(rt; replayed.answers[2].is_err());
        assert_eq!(rt; replayed.answers[4], Ok(()));
        let book = replayed.book;
        let live = book.live_under(0).ok_or("constraint 0 is not posted")?;
        assert_eq!(rt; book.live_count(book.base_live(Market::DayAhead), 1), 1);
        assert_eq!(rt; book.live_count(live, 1), 0);
        Ok(())
    }
}
