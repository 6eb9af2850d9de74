// Tests of the steps of building: which rows their tables hold when a step is refused, and that these are still in order.
#![tactic(auto)]

#[cfg(test)]
mod tests {
    use base::context::{Contribution, KnownStart};
    use base::image::{
        Ending, FaultCode, PublicSymbol, Section, SectionContribution, SectionOffset, TextPart,
    };
    use base::refusal::{FaultyList, Refusal, Step};
    use rows::source::RowSource;
    use rows::tables::ImageRows;
    use sections::{Sections, read_sections};
    use starts::{add_section_ends, add_start, read_public_symbols};
    use steps::tables::Filling;
    use table::{OrderedTable, Table};

    const CODE: Section = Section {
        address: 0x1000,
        size: 0x1000,
        executable: true,
    };

    fn at(offset: u32) -> SectionOffset {
        SectionOffset { section: 1, offset }
    }

    fn symbol(offset: u32) -> PublicSymbol {
        PublicSymbol {
            offset: at(offset),
            name: TextPart::default(),
        }
    }

    fn contribution(offset: u32, size: u32, module: u16) -> SectionContribution {
        SectionContribution {
            offset: at(offset),
            size,
            module,
        }
    }

    fn image<'a>(
        sections: &'a [Section],
        symbols: &'a [PublicSymbol],
        symbols_end: Ending,
        contributions: &'a [SectionContribution],
    ) -> RowSource<'a> {
        let rows = ImageRows {
            text: &[],
            sections,
            symbols,
            symbols_end,
            contributions,
            contributions_end: Ok(()),
        };
        let mut source = RowSource::empty();
        match RowSource::open(rows, &mut source) {
            Ok(()) => source,
            Err(_) => RowSource::empty(),
        }
    }

    fn offsets_are(starts: &[KnownStart], wanted: &[u32]) -> bool {
        starts.len() == wanted.len()
            && starts
                .iter()
                .zip(wanted)
                .all(|(start, offset)| start.offset == at(*offset))
    }

    #[test]
    fn a_start_too_many(rt: HostRuntime) {
        let mut rows = [KnownStart::empty(); 2];
        let mut starts = Table::over(&mut rows);
        let first = add_start(
            &mut starts,
            KnownStart::from(at(0x30)),
            Step::ReadContributions,
        );
        let second = add_start(
            &mut starts,
            KnownStart::from(at(0x10)),
            Step::ReadContributions,
        );
        let third = add_start(
            &mut starts,
            KnownStart::from(at(0x20)),
            Step::ReadContributions,
        );
        let Table { rows, count } = starts;
        let starts = OrderedTable { rows, count }.freeze();
        assert!(rt; first.is_ok() && second.is_ok());
        assert!(rt;
            matches!(
                third,
                Err(Refusal::StartTableFull {
                    step: Step::ReadContributions
                })
            )
        );
        assert!(rt; offsets_are(starts.used().rows, &[0x10, 0x30]));
    }

    #[test]
    fn a_faulty_list_of_symbols(rt: HostRuntime) {
        let symbols = [symbol(0x30), symbol(0x10)];
        let source = image(&[CODE], &symbols, Err(FaultCode(7)), &[]);
        let mut rows = [KnownStart::empty(); 4];
        let mut starts = Table::over(&mut rows);
        let sections = match read_sections(&source) {
            Ok(sections) => sections,
            Err(_) => Sections::empty(),
        };
        let read = read_public_symbols(&source, &sections, &mut starts);
        let Table { rows, count } = starts;
        let starts = OrderedTable { rows, count }.freeze();
        assert!(rt;
            matches!(
                read,
                Err(Refusal::Fault {
                    list: FaultyList::PublicSymbols,
                    code: FaultCode(7)
                })
            )
        );
        assert!(rt; offsets_are(starts.used().rows, &[0x10, 0x30]));
    }

    #[test]
    fn a_section_end_too_many(rt: HostRuntime) {
        let source = image(&[CODE, CODE], &[], Ok(()), &[]);
        let mut rows = [KnownStart::empty(); 1];
        let mut starts = Table::over(&mut rows);
        let sections = match read_sections(&source) {
            Ok(sections) => sections,
            Err(_) => Sections::empty(),
        };
        let added = add_section_ends(&sections, &mut starts);
        let Table { rows, count } = starts;
        let starts = OrderedTable { rows, count }.freeze();
        assert!(rt;
            matches!(
                added,
                Err(Refusal::StartTableFull {
                    step: Step::AddSectionEnds
                })
            )
        );
        assert!(rt; offsets_are(starts.used().rows, &[0x1000]));
    }

    #[test]
    fn contributions_that_overlap(rt: HostRuntime) {
        let listed = [
            contribution(0x40, 0x10, 2),
            contribution(0x48, 0x10, 0),
            contribution(0, 0x10, 1),
        ];
        let symbols = [symbol(0x20)];
        let source = image(&[CODE], &symbols, Ok(()), &listed);
        let mut start_rows = [KnownStart::empty(); 8];
        let mut contribution_rows = [Contribution::empty(); 8];
        let mut filling = Filling {
            starts: Table::over(&mut start_rows),
            contributions: Table::over(&mut contribution_rows),
            newest: None,
        };
        let filled = filling.fill(&source);
        let Filling {
            starts,
            contributions,
            newest: _,
        } = filling;
        let Table { rows, count } = starts;
        let starts = OrderedTable { rows, count }.freeze();
        let Table { rows, count } = contributions;
        let contributions = OrderedTable { rows, count }.freeze();
        assert!(rt;
            matches!(
                filled,
                Err(Refusal::Overlapping {
                    section: 1,
                    first: 2,
                    second: 0
                })
            )
        );
        assert!(rt; offsets_are(starts.used().rows, &[0, 0x20, 0x48]));
        let order: [u16; 3] = [1, 2, 0];
        assert!(rt; contributions.used().rows.len() == 3);
        assert!(rt;
            contributions
                .used()
                .rows
                .iter()
                .zip(&order)
                .all(|(row, module)| row.module == *module)
        );
    }
}
