//! Goes through the layers of an until by one engine on one thread, and prints how many there were.
//! It answers nothing: `bench/run` times it.
#![tactic(auto)]

mod engine;
mod held;
mod until;

use engine::Engine;
use outside::{DiskFiles, Files};
use std::alloc::Global;
use std::env;
use std::process::ExitCode;
use std::rt::{Env, Files as SystemFiles};
use std::thread::Threads;
use until::plan_of;

fn main(rt: HostRuntime) -> ExitCode {
    match layers(&rt, rt.alloc()) {
        Some(layers) => {
            let _ = println!(rt; "layers {layers}");
            ExitCode::SUCCESS
        }
        None => {
            let _ = eprintln!(rt;
                "usage: engine_bench (plan | tables | window | board | one | two | held) M.tra M.lab LABEL TIME"
            );
            ExitCode::FAILURE
        }
    }
}

// The number of layers, where the words name an engine and an until, and nothing fails.
fn layers<R: Env + SystemFiles + AllocGlobal + Threads + Sync>(
    rt: &R,
    alloc: Global,
) -> Option<u32> {
    let words: Vec<String> = env::args(rt).ok()?.collect(alloc).ok()?;
    let [_, engine, tra, lab, label, time] = words.as_slice() else {
        return None;
    };
    let engine = Engine::named(engine.as_str())?;
    let mut files = DiskFiles::new(rt);
    let tra = files.take(alloc, tra.as_str()).ok()?;
    let lab = files.take(alloc, lab.as_str()).ok()?;
    let plan = plan_of(alloc, &tra, &lab, label.as_bytes(), time.as_bytes())?;
    engine.run(rt, alloc, plan).ok()
}
