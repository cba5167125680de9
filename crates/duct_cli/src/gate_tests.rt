//! Runs of two workers whose gate holds one up until the other has come far enough.
ghost use Rattle.std.specs.Prelude.{◌≡◌, [], IfOk};

use crate::run::run;
use design_rules::PresetRule;
use duct_ports::{Gate, HeldFile, MemoryFiles, MemorySink};
use duct_units::List;
use std::alloc::Global;
use std::hint;
use std::sync::atomic::{AtomicBool, Ordering};
use std::test::Fail;
use std::thread::Threads;

/// How many turns a gate holds a worker at most.
const TURNS: u32 = 100_000_000;

/// Section 0, and the leaves 1 to 4 beyond it. Of two workers, worker 0 has the leaves 1 and 3 as its share.
const STAR: &str = r#"format = 1
name = "star"
fan = [{ name = "f1", pressure = 20, cost = 0 }]
section = [
  { name = "s0", side = "supply", sizes = ["k"], pairs = [[1, 0, 10, 1]] },
  { name = "s1", side = "supply", neighbour = "s0", sizes = ["k"], pairs = [[1, 1, 10, 1]] },
  { name = "s2", side = "supply", neighbour = "s0", sizes = ["k"], pairs = [[1, 1, 10, 1]] },
  { name = "s3", side = "supply", neighbour = "s0", sizes = ["k"], pairs = [[1, 1, 10, 1]] },
  { name = "s4", side = "supply", neighbour = "s0", sizes = ["k"], pairs = [[1, 1, 10, 1]] },
]
"#;

/// Section 0, 1 and 2 beyond it, and the leaves 3 beyond 1 and 4 beyond 2.
const FORK: &str = r#"format = 1
name = "fork"
fan = [{ name = "f1", pressure = 30, cost = 0 }]
section = [
  { name = "s0", side = "supply", sizes = ["k"], pairs = [[1, 0, 10, 1]] },
  { name = "s1", side = "supply", neighbour = "s0", sizes = ["k"], pairs = [[1, 1, 10, 1]] },
  { name = "s2", side = "supply", neighbour = "s0", sizes = ["k"], pairs = [[1, 1, 10, 1]] },
  { name = "s3", side = "supply", neighbour = "s1", sizes = ["k"], pairs = [[1, 1, 10, 1]] },
  { name = "s4", side = "supply", neighbour = "s2", sizes = ["k"], pairs = [[1, 1, 10, 1]] },
]
"#;

/// The sections of either design, where a bar stands for a line feed.
const SECTIONS: &str =
    "section s0 k 10 1 0|section s1 k 10 1 0|section s2 k 10 1 0|section s3 k 10 1 0|section s4 k 10 1 0|cost 5|end|";

/// What happens once or not at all, and workers may wait for.
#[derive(Drop)]
struct Event {
    happened: AtomicBool,
}

impl Event {
    fn new() -> Event {
        Event {
            happened: AtomicBool::new(false),
        }
    }

    /// Notes that it happens, and answers whether it had happened before.
    fn note(&self) -> bool {
        self.happened.swap(true, Ordering::SeqCst)
    }

    fn has_happened(&self) -> bool {
        self.happened.load(Ordering::SeqCst)
    }

    /// Whether it happens before the last turn.
    fn happens_in_time(&self) -> bool {
        for _ in 0..TURNS {
            if self.has_happened() {
                return true;
            }
            hint::spin_loop();
        }
        false
    }
}

/// Holds the first entry of worker 1 until worker 0 has entered a section, and the first entry of worker 0 until worker
/// 1 has entered a leaf of worker 0's share.
#[derive(Drop)]
struct StealGate {
    first_of_0: Event,
    first_of_1: Event,
    stolen: Event,
    late: Event,
}

impl StealGate {
    fn new() -> StealGate {
        StealGate {
            first_of_0: Event::new(),
            first_of_1: Event::new(),
            stolen: Event::new(),
            late: Event::new(),
        }
    }

    /// Holds the worker until the event happens; where it comes too late, that is noted.
    fn hold_until(&self, event: &Event) {
        if !event.happens_in_time() {
            self.late.note();
        }
    }
}

impl Gate for StealGate {
    fn enter(&self, worker: u32, section: u32) {
        if worker == 0 {
            if !self.first_of_0.note() {
                self.hold_until(&self.stolen);
            }
            return;
        }
        if section == 1 || section == 3 {
            self.stolen.note();
        }
        if !self.first_of_1.note() {
            self.hold_until(&self.first_of_0);
        }
    }
}

/// Holds the entry of leaf 4 until section 1 was entered.
#[derive(Drop)]
struct LevelGate {
    entered: Event,
    late: Event,
}

impl LevelGate {
    fn new() -> LevelGate {
        LevelGate {
            entered: Event::new(),
            late: Event::new(),
        }
    }
}

impl Gate for LevelGate {
    fn enter(&self, _worker: u32, section: u32) {
        if section == 1 {
            self.entered.note();
        }
        if section == 4 && !self.entered.happens_in_time() {
            self.late.note();
        }
    }
}

#[test]
fn workers_run_at_once_and_steal(rt: HostRuntime) -> Result<(), Fail> {
    let gate = StealGate::new();
    let found = outcome(&rt, STAR, &gate)?;
    let wanted = design(rt.alloc(), "star", 20)?;
    assert_eq!(rt; found.as_str(), wanted.as_str());
    assert!(rt; !gate.late.has_happened(), "a worker was held too long");
    Ok(())
}

#[test]
fn no_worker_waits_for_a_level(rt: HostRuntime) -> Result<(), Fail> {
    let gate = LevelGate::new();
    let found = outcome(&rt, FORK, &gate)?;
    let wanted = design(rt.alloc(), "fork", 30)?;
    assert_eq!(rt; found.as_str(), wanted.as_str());
    assert!(rt; !gate.late.has_happened(), "a worker was held too long");
    Ok(())
}

/// The status and the text of the design of the network, whose fan is just strong enough.
fn design(alloc: Global, name: &str, pressure: u32) -> Result<String, Fail> {
    Ok(format!(in alloc;
        "0 design 1|project {name}|fan f1 {pressure} 0|supply {pressure} {pressure}|return 0 0|{SECTIONS}"
    )?)
}

/// The status and the text of `pick` on the network by two workers.
fn outcome<T: Threads + Sync + AllocGlobal, G: Gate>(
    rt: &T,
    network: &str,
    gate: &G,
) -> Result<String, Fail> {
    let alloc = rt.alloc();
    let words = words_of(alloc)?;
    let mut files = files_of(alloc, network)?;
    let mut out = MemorySink::new(alloc, 1000, 1000, List::from_vec(Vec::new(alloc)))?;
    let rules: Vec<PresetRule> = Vec::new(alloc);
    let status = run(
        rt,
        alloc,
        words.as_slice(),
        &mut files,
        &mut out,
        rules,
        gate,
    );
    let text = str::from_utf8(out.bytes())?.replace(alloc, "\n", "|")?;
    Ok(format!(in alloc; "{status} {text}")?)
}

fn words_of(alloc: Global) -> Result<Vec<String>, Fail> {
    let mut words = Vec::new(alloc);
    for word in ["pick", "network", "--workers", "2"] {
        words.push(String::from_str(alloc, word)?)?;
    }
    Ok(words)
}

fn files_of<'w>(alloc: Global, network: &str) -> Result<MemoryFiles<'w>, Fail>
    ensures { IfOk result (λ files. files.asked ≡ []) }
{
    let file = HeldFile {
        name: List::from_vec(b"network".to_vec(alloc)?),
        bytes: List::from_vec(network.as_bytes().to_vec(alloc)?),
    };
    let files = List::from_vec(vec![in alloc; file]?);
    Ok(MemoryFiles::new(files, List::from_vec(Vec::new(alloc))))
}
