// Tests of `clock`, `timetable`, `plan` and `bars` at their edges.
// They stand in a crate of their own, so that those crates are not proved a second time for them.
#![tactic(auto)]

#[cfg(test)]
mod tests {
    use bars::line;
    use cases::example_plan;
    use cases::free::Free;
    use cases::parts::{deep_entries, entry, is_example};
    use clock::{BasePeriod, Cycle, Place};
    use plan::entry::Entry;
    use plan::fault::PlanFault;
    use plan::plan::Plan;
    use std::test::Fail;
    use timetable::shift::Shift;
    use timetable::table::Timetable;

    // A shift in a struct of a caller's own, which is copied where it is passed by value.
    #[derive(Clone, Copy)]
    struct Stage {
        table: Shift<Free>,
        number: u8,
    }

    fn owner_on(stage: Stage, t: i32) -> Option<u8> {
        stage.table.owner_at(t)
    }

    fn number_of(stage: Stage) -> u8 {
        stage.number
    }

    // Both calls take the stage: this is proved only while a shift is copied with the struct that holds it.
    fn owner_and_number(stage: Stage, t: i32) -> (Option<u8>, u8) {
        (owner_on(stage, t), number_of(stage))
    }

    #[test]
    fn places_at_both_ends_of_the_clock(rt: HostRuntime) {
        let wide = BasePeriod { ticks: 64 };
        assert_eq!(rt;
            wide.place(i32::MIN),
            Place {
                frame: -33554432,
                offset: 0,
            }
        );
        assert_eq!(rt;
            wide.place(-1),
            Place {
                frame: -1,
                offset: 63,
            }
        );
        assert_eq!(rt;
            wide.place(i32::MAX),
            Place {
                frame: 33554431,
                offset: 63,
            }
        );
        let narrow = BasePeriod { ticks: 1 };
        assert_eq!(rt;
            narrow.place(i32::MIN),
            Place {
                frame: i32::MIN,
                offset: 0,
            }
        );
        let odd = BasePeriod { ticks: 7 };
        assert_eq!(rt;
            odd.place(i32::MIN),
            Place {
                frame: -306783379,
                offset: 5,
            }
        );
        assert!(rt; BasePeriod::new(1).is_some() && BasePeriod::new(64).is_some());
        assert!(rt; BasePeriod::new(0).is_none() && BasePeriod::new(65).is_none());
    }

    #[test]
    fn phases_of_33_bit_differences(rt: HostRuntime) {
        let long = Cycle { ticks: 2048 };
        assert_eq!(rt; long.phase(i32::MAX, i32::MIN), 2047);
        assert_eq!(rt; long.phase(i32::MIN, i32::MAX), 1);
        let odd = Cycle { ticks: 7 };
        assert_eq!(rt; odd.phase(i32::MAX, i32::MIN), 3);
        assert_eq!(rt; odd.phase(i32::MIN, i32::MAX), 4);
        assert!(rt; Cycle::new(1).is_some() && Cycle::new(2048).is_some());
        assert!(rt; Cycle::new(0).is_none() && Cycle::new(2049).is_none());
    }

    #[test]
    fn owners_at_both_ends_of_the_clock(rt: HostRuntime) -> Result<(), Fail> {
        let plan = example_plan(rt.alloc())?;
        assert_eq!(rt; plan.owner_at(i32::MIN), Some(1));
        assert_eq!(rt; plan.owner_at(-2147483647), Some(4));
        assert_eq!(rt; plan.owner_at(-11), None);
        assert_eq!(rt; plan.owner_at(-1), Some(5));
        assert_eq!(rt; plan.owner_at(0), Some(1));
        assert_eq!(rt; plan.owner_at(i32::MAX), Some(0));
        assert_eq!(rt; plan.base().ticks, 10);
        assert_eq!(rt; plan.depth(), 2);
        assert_eq!(rt; plan.cycle().ticks, 40);
        Ok(())
    }

    #[test]
    fn shifts_by_the_largest_steps(rt: HostRuntime) -> Result<(), Fail> {
        let later = Shift::new(example_plan(rt.alloc())?, i32::MAX);
        assert_eq!(rt; later.owner_at(i32::MIN), Some(0));
        assert_eq!(rt; later.owner_at(0), Some(4));
        assert_eq!(rt; later.owner_at(i32::MAX), Some(1));
        let both = Shift::new(later, i32::MIN);
        assert_eq!(rt; both.owner_at(i32::MIN), Some(4));
        assert_eq!(rt; both.owner_at(-1), Some(1));
        assert_eq!(rt; both.cycle().ticks, 40);
        Ok(())
    }

    #[test]
    fn a_shift_is_copied_with_its_struct(rt: HostRuntime) {
        let stage = Stage {
            table: Shift::new(Free, i32::MIN),
            number: 7,
        };
        assert_eq!(rt; owner_and_number(stage, i32::MAX), (None, 7));
        assert_eq!(rt; owner_and_number(stage, 0), (None, 7));
        assert_eq!(rt; stage.table.cycle().ticks, 1);
    }

    #[test]
    fn a_full_plan(rt: HostRuntime) -> Result<(), Fail> {
        let mut plan = Plan::empty(rt.alloc());
        assert_eq!(rt; plan.owner_at(i32::MIN), None);
        assert_eq!(rt; plan.cycle().ticks, 1);
        let entries = deep_entries(rt.alloc(), 120)?;
        plan.fill(64, 5, entries.as_slice())?;
        assert_eq!(rt; plan.cycle().ticks, 2048);
        assert_eq!(rt; plan.entries().len(), 120);
        assert_eq!(rt; plan.owner_at(-1), None);
        assert_eq!(rt; plan.owner_at(-17), Some(15));
        assert_eq!(rt; plan.owner_at(i32::MIN), Some(0));
        Ok(())
    }

    #[test]
    fn dimensions_refused(rt: HostRuntime) -> Result<(), Fail> {
        let mut plan = example_plan(rt.alloc())?;
        assert_eq!(rt; plan.fill(0, 0, &[]), Err(PlanFault::Dimensions));
        assert_eq!(rt; plan.fill(65, 0, &[]), Err(PlanFault::Dimensions));
        assert_eq!(rt; plan.fill(65535, 255, &[]), Err(PlanFault::Dimensions));
        assert_eq!(rt; plan.fill(64, 6, &[]), Err(PlanFault::Dimensions));
        assert_eq!(rt; PlanFault::Dimensions.number(), Some(21));
        assert!(rt; is_example(&plan));
        Ok(())
    }

    #[test]
    fn the_121st_entry_refused(rt: HostRuntime) -> Result<(), Fail> {
        let mut plan = example_plan(rt.alloc())?;
        let entries = deep_entries(rt.alloc(), 121)?;
        assert_eq!(rt;
            plan.fill(64, 5, entries.as_slice()),
            Err(PlanFault::TooManyEntries)
        );
        assert_eq!(rt; PlanFault::TooManyEntries.number(), Some(22));
        assert!(rt; is_example(&plan));
        Ok(())
    }

    #[test]
    fn fields_refused(rt: HostRuntime) -> Result<(), Fail> {
        let mut plan = example_plan(rt.alloc())?;
        let good = entry(15, 1, 1, 3, 1);
        let bad = [
            Entry {
                activity: 16,
                ..good
            },
            Entry { depth: 2, ..good },
            Entry { path: 2, ..good },
            Entry { length: 0, ..good },
            Entry { offset: 4, ..good },
            Entry {
                offset: 65535,
                length: 65535,
                ..good
            },
            Entry {
                depth: 255,
                path: 65535,
                ..good
            },
        ];
        for entry in bad {
            assert_eq!(rt;
                plan.fill(4, 1, &[good, entry, entry]),
                Err(PlanFault::OutOfRange { index: 1 })
            );
        }
        assert_eq!(rt; PlanFault::OutOfRange { index: 1 }.number(), Some(23));
        assert!(rt; is_example(&plan));
        Ok(())
    }

    #[test]
    fn clashes_refused(rt: HostRuntime) -> Result<(), Fail> {
        let mut plan = example_plan(rt.alloc())?;
        let shallow = entry(0, 1, 1, 0, 2);
        let deep = entry(1, 2, 3, 1, 2);
        let other = entry(2, 2, 1, 2, 1);
        assert_eq!(rt;
            plan.fill(4, 2, &[shallow, other, deep]),
            Err(PlanFault::Clash {
                later: 2,
                earlier: 0,
            })
        );
        assert_eq!(rt;
            plan.fill(4, 2, &[deep, other, shallow]),
            Err(PlanFault::Clash {
                later: 2,
                earlier: 0,
            })
        );
        assert_eq!(rt;
            plan.fill(4, 2, &[other, other, deep, deep]),
            Err(PlanFault::Clash {
                later: 1,
                earlier: 0,
            })
        );
        assert_eq!(rt;
            PlanFault::Clash {
                later: 2,
                earlier: 0,
            }
            .number(),
            Some(24)
        );
        assert!(rt; is_example(&plan));
        assert_eq!(rt; PlanFault::Memory.number(), None);
        assert_eq!(rt; plan.fill(4, 2, &[other, deep]), Ok(()));
        Ok(())
    }

    #[test]
    fn lines_of_the_shortest_cycle(rt: HostRuntime) -> Result<(), Fail> {
        let plan = Plan::empty(rt.alloc());
        let free = line(rt.alloc(), &plan, None)?;
        assert_eq!(rt; free.as_str(), "#|#");
        let first = line(rt.alloc(), &plan, Some(0))?;
        assert_eq!(rt; first.as_str(), ".|.");
        Ok(())
    }
}
