use super::*;
use catalogue::{BankPlan, Mix, YcsbPlan};
use port_io::Word;
use std::alloc::{AllocError, Global};
use std::test::Fail;

fn words(alloc: Global, texts: &[&str]) -> Result<Vec<Word>, AllocError> {
    let mut words = Vec::new(alloc);
    for text in texts {
        words.push(Word::of(String::from_str(alloc, text)?))?;
    }
    Ok(words)
}

#[test]
fn words_are_these_commands(rt: HostRuntime) -> Result<(), Fail> {
    let cases = [
        (["run"].as_slice(), Ok(Command::Run { draws: None })),
        (["run", "--"].as_slice(), Ok(Command::Run { draws: None })),
        (
            ["run", "--number=5", "--draws", "10"].as_slice(),
            Ok(Command::Run {
                draws: Some(Draws {
                    count: 10,
                    number: 5,
                }),
            }),
        ),
        (["run", "--draws", "10"].as_slice(), Err(WordFault::Usage)),
        (
            ["run", "--draws", "1", "--draws", "1", "--number", "1"].as_slice(),
            Err(WordFault::Usage),
        ),
        (
            ["race", "--threads", "08"].as_slice(),
            Ok(Command::Race { threads: 8 }),
        ),
        (["race", "--threads=0"].as_slice(), Err(WordFault::Usage)),
        (["recover"].as_slice(), Ok(Command::Recover)),
        (["hot", "--", "3"].as_slice(), Ok(Command::Hot { k: 3 })),
        (["hot", "003"].as_slice(), Ok(Command::Hot { k: 3 })),
        (["hot", "65537"].as_slice(), Err(WordFault::Usage)),
        (["hot", "-3"].as_slice(), Err(WordFault::Usage)),
        (["hot"].as_slice(), Err(WordFault::Usage)),
        (
            ["layout", "65536"].as_slice(),
            Ok(Command::Layout { k: 65_536 }),
        ),
        (["run", "5"].as_slice(), Err(WordFault::Usage)),
        (["help"].as_slice(), Err(WordFault::Usage)),
        (
            ["gen", "smallbank"].as_slice(),
            Ok(Command::Gen(Work::SmallBank(BankPlan {
                number: 1,
                clients: 4,
                scripts: 100,
                customers: 100,
                hot: 10,
                share: 80,
            }))),
        ),
        (
            [
                "drive",
                "--mix=b",
                "--ops",
                "16",
                "ycsb",
                "--clients=8",
                "--scripts=0512",
                "--hot=100",
                "--share=0",
                "--number=18446744073709551615",
            ]
            .as_slice(),
            Ok(Command::Drive(Work::Ycsb(YcsbPlan {
                number: 18_446_744_073_709_551_615,
                clients: 8,
                scripts: 512,
                records: 100,
                hot: 100,
                share: 0,
                ops: 16,
                mix: Mix::B,
            }))),
        ),
        (
            ["gen", "ycsb", "--customers", "5"].as_slice(),
            Err(WordFault::Usage),
        ),
        (
            ["gen", "smallbank", "--customers", "5"].as_slice(),
            Err(WordFault::Usage),
        ),
        (
            ["drive", "smallbank", "--mix", "a"].as_slice(),
            Err(WordFault::Usage),
        ),
        (
            ["drive", "ycsb", "--clients=5", "--scripts=820"].as_slice(),
            Err(WordFault::Usage),
        ),
        (
            ["drive", "ycsb", "--mix=d"].as_slice(),
            Err(WordFault::Usage),
        ),
        (["gen"].as_slice(), Err(WordFault::Usage)),
        ([].as_slice(), Err(WordFault::Usage)),
    ];
    for (texts, command) in cases {
        let alloc = rt.alloc();
        let words = words(alloc, texts)?;
        assert_eq!(rt; command_of(alloc, words.as_slice()), command, "{texts:?}");
    }
    Ok(())
}
