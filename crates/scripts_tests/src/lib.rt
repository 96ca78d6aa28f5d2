// Tests of the script reader and of the lines of a transcript.
#![tactic(auto)]

#[cfg(test)]
mod tests {
    use scripts::{
        Area, BadRecord, Command, Record, Records, count_records, next_record, printed, push_bytes,
        push_counts, push_numbers, push_plain,
    };
    use std::test::Fail;

    // Create, map object, fork, write, two reads, usage.
    const SAMPLE: [u8; 53] = [
        0, 2, 1, 1, 0, 10, 3, 1, 0, 4, 0, 2, 0, 0, 0, 2, 0, 3, 7, 1, 2, 0, 7, 8, 1, 0, 0, 4, 0,
        0xaa, 0, 8, 9, 2, 0, 0, 4, 0, 0, 1, 0, 8, 9, 1, 0, 0, 4, 0, 0, 2, 0, 1, 11,
    ];

    // A record of an unknown operation or a wrong length, and one that is cut short.
    const MALFORMED: Record<'static> = Err(BadRecord::Malformed);

    const CUT_SHORT: Record<'static> = Err(BadRecord::CutShort);

    // A fork of task 1 into task 2.
    const FORK: Record<'static> = Ok(Command::Fork {
        parent: 1,
        child: 2,
    });

    // The script has these records and no other.
    fn reads(script: &[u8], records: &[Record]) -> bool {
        Records(script).eq(records.iter().copied())
    }

    #[test]
    fn sample(rt: HostRuntime) {
        let records = [
            Ok(Command::Create { task: 1 }),
            Ok(Command::MapObject {
                area: Area {
                    task: 1,
                    start: 4,
                    pages: 2,
                },
                object: 0,
                first: 2,
            }),
            FORK,
            Ok(Command::Write {
                task: 1,
                address: 1024,
                bytes: &[0xaa],
            }),
            Ok(Command::Read {
                task: 2,
                address: 1024,
                count: 1,
            }),
            Ok(Command::Read {
                task: 1,
                address: 1024,
                count: 2,
            }),
            Ok(Command::Usage),
        ];
        assert!(rt; reads(&SAMPLE, &records));
        assert_eq!(rt; count_records(&SAMPLE), 7);
    }

    #[test]
    fn fields(rt: HostRuntime) {
        let map = [0, 10, 3, 1, 0, 4, 1, 2, 0, 5, 0, 6];
        let area = Area {
            task: 1,
            start: 4,
            pages: 258,
        };
        let mapped = Command::MapObject {
            area,
            object: 5,
            first: 6,
        };
        assert!(rt; next_record(&map) == Some((Ok(mapped), &[])));
        let write = [0, 7, 8, 9, 1, 2, 3, 4, 0xaa, 0];
        let written = Command::Write {
            task: 9,
            address: 0x01020304,
            bytes: &[0xaa],
        };
        assert!(rt; next_record(&write) == Some((Ok(written), &[0])));
    }

    #[test]
    fn cut_short(rt: HostRuntime) {
        let fork = [0, 3, 7, 1, 2];
        assert!(rt; reads(&[], &[]));
        for n in 1..5 {
            assert!(rt; reads(&fork[0..n], &[CUT_SHORT]));
        }
        assert!(rt; reads(&fork, &[FORK]));
        assert!(rt; reads(&[0, 1, 11, 255, 255, 12], &[Ok(Command::Usage), CUT_SHORT]));
    }

    #[test]
    fn malformed(rt: HostRuntime) {
        assert!(rt; reads(&[0, 0], &[MALFORMED]));
        assert!(rt; reads(&[0, 0, 0, 1, 11], &[MALFORMED, Ok(Command::Usage)]));
        assert!(rt; reads(&[0, 1, 0, 0, 1, 12, 0, 1, 255], &[MALFORMED; 3]));
        assert!(rt;
            reads(
                &[0, 1, 1, 0, 3, 1, 1, 1, 0, 2, 11, 0, 0, 2, 10, 1],
                &[
                    MALFORMED,
                    MALFORMED,
                    MALFORMED,
                    Ok(Command::Exit { task: 1 })
                ],
            )
        );
        assert!(rt; reads(&[0, 6, 8, 1, 0, 0, 4, 0], &[MALFORMED]));
    }

    #[test]
    fn long_writes(rt: HostRuntime) {
        let mut most = [0u8; 264];
        most[0] = 1;
        most[1] = 6;
        most[2] = 8;
        let written = Command::Write {
            task: 0,
            address: 0,
            bytes: &[0; 256],
        };
        assert!(rt; reads(&most, &[Ok(written)]));
        let mut over = [0u8; 265];
        over[0] = 1;
        over[1] = 7;
        over[2] = 8;
        assert!(rt; reads(&over, &[MALFORMED]));
    }

    #[test]
    fn lines(rt: HostRuntime) -> Result<(), Fail> {
        let mut out = String::new(rt.alloc());
        push_plain(&mut out, 1, 0)?;
        push_counts(&mut out, 2, [3, 2, 1, 128])?;
        push_bytes(&mut out, 3, &[0, 0xaf])?;
        push_numbers(&mut out, 4, 12, &[2, 0, 1, 0, 1, 1, 1024])?;
        push_plain(&mut out, 15, 14)?;
        assert!(rt; out.as_str() == "1 0\n2 0 3 2 1 128\n3 0 00af\n4 12 2 0 1 0 1 1 1024\n15 14\n");
        Ok(())
    }

    // Calls, refusals, a malformed record and one that is cut short.
    #[test]
    fn short_script(rt: HostRuntime) -> Result<(), Fail> {
        let script = [0, 2, 1, 1, 0, 2, 1, 1, 0, 2, 10, 9, 0, 1, 11, 0, 0, 0];
        let text = printed(rt.alloc(), &script)?;
        assert!(rt; text.as_str() == "1 0\n2 3\n3 2\n4 0 0 0 0 128\n5 13\n6 14\n");
        Ok(())
    }

    // The longest script is performed, and one byte more is not.
    #[test]
    fn long_scripts(rt: HostRuntime) -> Result<(), Fail> {
        let heap = rt.alloc();
        let mut script = vec![in heap; 0u8; 16384]?;
        let text = printed(heap, script.as_slice())?;
        assert!(rt; text.as_str().starts_with("1 13\n2 13\n"));
        assert!(rt; text.as_str().ends_with("\n8192 13\n"));
        script.push(0)?;
        let refused = printed(heap, script.as_slice())?;
        assert!(rt; refused.as_str() == "too long\n");
        Ok(())
    }
}
