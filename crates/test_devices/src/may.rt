// What the devices of a run may stand for, as its replies tell it.

/// The calls of the scripts. They know two names, p and q, of the pool on both devices.
#[derive(Clone, Copy, Debug, PartialEq, Eq)]
pub enum Step {
    Create,
    Rename,
    StopP,
    StopQ,
    StartP,
    StartQ,
    Destroy,
}

impl Step {
    pub fn line(self) -> &'static str {
        match self {
            Step::Create => {
                r#"{"call":"CreatePool","name":"p","devices":["/dev/sim0","/dev/sim1"]}"#
            }
            Step::Rename => r#"{"call":"RenamePool","name":"p","new":"q"}"#,
            Step::StopP => r#"{"call":"StopPool","name":"p"}"#,
            Step::StopQ => r#"{"call":"StopPool","name":"q"}"#,
            Step::StartP => r#"{"call":"StartPool","id":"p"}"#,
            Step::StartQ => r#"{"call":"StartPool","id":"q"}"#,
            Step::Destroy => r#"{"call":"DestroyPool","name":"q"}"#,
        }
    }
}

/// What a call was answered.
#[derive(Clone, Copy, Debug, PartialEq, Eq)]
pub enum Said {
    Changed,
    Unchanged,
    Fault,
    Vanished,
    Refused,
}

pub fn said_in(line: &str) -> Said {
    if line.starts_with(r#"{"code":27,"#) {
        return Said::Fault;
    }
    if line.starts_with(r#"{"code":15,"#) {
        return Said::Vanished;
    }
    if !line.starts_with(r#"{"code":0,"#) {
        return Said::Refused;
    }
    if line.contains(r#""result":[true,"#) {
        Said::Changed
    } else {
        Said::Unchanged
    }
}

/// What the devices may stand for: nothing that was ever a pool, a pool that is gone, the pool p or the pool q.
#[derive(Clone, Copy, Debug)]
pub struct May {
    pub blank: bool,
    pub gone: bool,
    pub p: bool,
    pub q: bool,
    /// No call is in flight.
    pub settled: bool,
}

const NONE: May = May {
    blank: false,
    gone: false,
    p: false,
    q: false,
    settled: true,
};

/// Blank devices.
pub const BLANK: May = May {
    blank: true,
    ..NONE
};

/// A device failed in the call: it may have been done or not.
fn after_fault(may: May, step: Step) -> May {
    match step {
        Step::Create => May {
            gone: true,
            p: true,
            settled: false,
            ..may
        },
        Step::Rename => May {
            q: true,
            settled: false,
            ..may
        },
        Step::Destroy => May {
            gone: true,
            settled: false,
            ..may
        },
        Step::StopP | Step::StopQ | Step::StartP | Step::StartQ => may,
    }
}

fn after_change(may: May, step: Step) -> May {
    match step {
        Step::Create => May { p: true, ..NONE },
        Step::Rename => May { q: true, ..NONE },
        Step::Destroy => May { gone: true, ..NONE },
        Step::StopP | Step::StopQ => may,
        Step::StartP | Step::StartQ => May {
            blank: false,
            gone: false,
            settled: true,
            ..may
        },
    }
}

/// After a call that was answered so.
pub fn after(may: May, step: Step, said: Said) -> May {
    match said {
        Said::Fault => after_fault(may, step),
        Said::Changed => after_change(may, step),
        Said::Vanished => May {
            p: false,
            q: false,
            settled: true,
            ..may
        },
        // No pool has the name q.
        Said::Unchanged if step == Step::Destroy && may.settled => May { q: false, ..may },
        Said::Unchanged | Said::Refused => may,
    }
}

/// The report of the next run on blank devices.
const OF_BLANK: &str =
    r#"{"code":0,"line":1,"result":{"free_devices":["/dev/sim0","/dev/sim1"],"next_serial":1,"pools":[]},"text":""}
summary lines 1 ok 1 refused 0 written 0 read 0
"#;

const OF_GONE: &str =
    r#"{"code":0,"line":1,"result":{"free_devices":["/dev/sim0","/dev/sim1"],"next_serial":2,"pools":[]},"text":""}
summary lines 1 ok 1 refused 0 written 0 read 0
"#;

const OF_P: &str =
    r#"{"code":0,"line":1,"result":{"free_devices":[],"next_serial":2,"pools":[{"mode":"stopped","name":"p","uuid":"00000000-0000-0001-0100-000000000000"}]},"text":""}
summary lines 1 ok 1 refused 0 written 0 read 0
"#;

const OF_Q: &str =
    r#"{"code":0,"line":1,"result":{"free_devices":[],"next_serial":2,"pools":[{"mode":"stopped","name":"q","uuid":"00000000-0000-0001-0100-000000000000"}]},"text":""}
summary lines 1 ok 1 refused 0 written 0 read 0
"#;

/// Whether the next run may print this.
pub fn may_show(may: May, bytes: &[u8]) -> bool {
    (may.blank && bytes == OF_BLANK.as_bytes())
        || (may.gone && bytes == OF_GONE.as_bytes())
        || (may.p && bytes == OF_P.as_bytes())
        || (may.q && bytes == OF_Q.as_bytes())
}
