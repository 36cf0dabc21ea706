use press_client::{Limits, LogEntry, LogFault, Piece, SiteFile, SiteFiles, Teller, export};
use press_site::Token;
use press_text::{Name, Text};
use std::alloc::Global;
use std::test::Fail;

// Room for two commands a file.
const LIMITS: Limits = Limits {
    bytes: 1_000,
    commands: 2,
};

fn tick(alloc: Global, seq: u64, at: u64) -> Result<LogEntry, LogFault> {
    let Ok(editor) = Name::new(alloc, "ann") else {
        return Err(LogFault::NoMemory);
    };
    let fields = format!(in alloc; "\"editor\":\"ann\",\"kind\":\"tick\",\"seq\":{seq}}}")?;
    Ok(LogEntry::Command {
        token: Token { editor, seq },
        at,
        fields: Text::from_string(fields)?,
    })
}

fn are(files: &[SiteFile], texts: &[&str]) -> bool {
    files.len() == texts.len()
        && files
            .iter()
            .zip(texts.iter())
            .all(|(file, text)| file.text.as_str() == *text)
}

// A filler in front of all commands, one behind a later moment, and one that moves the site's own.
#[test]
fn fillers_move_the_moment_alone(rt: HostRuntime) -> Result<(), Fail> {
    let mut files = SiteFiles::new(rt.alloc(), LIMITS)?;
    files.put(LogEntry::Filler { at: 5 })?;
    files.put(tick(rt.alloc(), 1, 3)?)?;
    files.put(LogEntry::Filler { at: 4 })?;
    files.put(LogEntry::Filler { at: 9 })?;
    files.put(tick(rt.alloc(), 2, 7)?)?;
    let files = files.into_files()?;
    assert!(rt;
        are(
            &files,
            &[
                "{\"commands\":[\n{\"at\":5,\"editor\":\"ann\",\"kind\":\"tick\",\"seq\":1},\n{\"at\":9,\"editor\":\"ann\",\"kind\":\"tick\",\"seq\":1}\n]}\n",
                "{\"commands\":[\n{\"at\":7,\"editor\":\"ann\",\"kind\":\"tick\",\"seq\":2}\n]}\n",
            ]
        )
    );
    Ok(())
}

// A node that tells two values at a time, and applies one more each time that it is asked.
#[derive(Drop)]
struct Growing {
    alloc: Global,
    applied: u64,
    tells: bool,
}

impl Teller for Growing {
    ghost tells = { λ old from result new. Unit {0} };

    fn piece(&mut self, from: u64) -> Result<Piece, LogFault> {
        let mut entries = Vec::new(self.alloc);
        for seq in from..self.applied.min(from.saturating_add(2)) {
            if self.tells {
                match entries.push(tick(self.alloc, seq, seq)?) {
                    Ok(()) => {}
                    Err(_) => return Err(LogFault::NoMemory),
                }
            }
        }
        let applied = self.applied;
        self.applied = applied.saturating_add(1);
        Ok(Piece { applied, entries })
    }
}

#[test]
fn an_export_is_what_was_applied_at_first(rt: HostRuntime) -> Result<(), Fail> {
    let alloc = rt.alloc();
    let mut node = Growing {
        alloc,
        applied: 3,
        tells: true,
    };
    let files = export(alloc, &mut node, LIMITS)?;
    assert!(rt;
        are(
            &files,
            &[
                "{\"commands\":[\n{\"at\":0,\"editor\":\"ann\",\"kind\":\"tick\",\"seq\":0},\n{\"at\":1,\"editor\":\"ann\",\"kind\":\"tick\",\"seq\":1}\n]}\n",
                "{\"commands\":[\n{\"at\":2,\"editor\":\"ann\",\"kind\":\"tick\",\"seq\":2}\n]}\n",
            ]
        )
    );
    node.tells = false;
    assert!(rt; matches!(export(alloc, &mut node, LIMITS), Err(LogFault::NoLog)));
    Ok(())
}
