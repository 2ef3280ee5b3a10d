//! Dumps that run.
ghost use Rattle.std.specs.Prelude.{◌≡◌, ◌<◌, map, IfSome, OnOk, vec_capacity, vec_len};
ghost use Rattle.std.specs.List.{filter, find, position};
ghost use Rattle.std.specs.Option.{option_map};
ghost use Rattle.route_table.specs.Networks.{IsPlain};
ghost use Rattle.route_mirror.specs.Dumps.{begun_beside, dump_of, updated, is_whole, is_other};

use nl_core::NoMemory;
use route_table::{RouteChange, Routes};
use std::alloc::Global;

/// A dump that runs: its stream, its table so far, and whether a reply said that it was interrupted.
#[derive(Drop)]
pub(crate) struct RunningDump {
    pub(crate) stream: u64,
    pub(crate) routes: Routes,
    pub(crate) interrupted: bool,
}

// A change, and whether it comes with a mark, of all dumps or of those of one stream.
#[derive(Clone, Copy)]
pub(crate) struct Update {
    pub(crate) stream: Option<u64>,
    pub(crate) change: Option<RouteChange>,
    pub(crate) interrupted: bool,
}

impl RunningDump {
    // Takes in an update that is for the dump.
    fn update(&mut self, update: &Update) -> Result<(), NoMemory>
        requires { IfSome update.now.change (λ c. IsPlain c.network) }
        ensures { OnOk result (dump_of self.new ≡ updated update.now (dump_of self.old)) }
    {
        if update.stream.is_some_and(|stream| stream != self.stream) {
            return Ok(());
        }
        if let Some(change) = &update.change {
            self.routes.change(change)?;
        }
        self.interrupted = self.interrupted || update.interrupted;
        Ok(())
    }
}

// Takes an update in at each dump that it is for. Out of memory leaves some of them updated.
pub(crate) fn update_all(running: &mut Vec<RunningDump>, update: &Update) -> Result<(), NoMemory>
    requires { IfSome update.now.change (λ c. IsPlain c.network) }
    ensures { OnOk result (map dump_of running.new.items ≡ map (updated update.now) (map dump_of running.old.items)) }
{
    for at in 0..running.len() {
        running[at].update(update)?;
    }
    Ok(())
}

// The place of the first dump of a stream that wasn't interrupted.
fn whole_dump(running: &[RunningDump], stream: u64) -> Option<usize>
    ensures { result ≡ position (is_whole stream) running.now }
{
    running
        .iter()
        .position(|dump| stream == dump.stream && !dump.interrupted)
}

// Takes the table out of the first dump of a stream that wasn't interrupted.
pub(crate) fn take_whole(running: &mut Vec<RunningDump>, stream: u64) -> Option<Routes>
    ensures table { result ≡ option_map (λ d. d.routes) (find (is_whole stream) running.old.items) }
    ensures others { filter (is_other stream) running.new.items ≡ filter (is_other stream) running.old.items }
{
    let Some(at) = whole_dump(running, stream) else {
        return None;
    };
    let RunningDump { routes, .. } = running.remove(at);
    Some(routes)
}

// Takes the dumps of a stream away.
pub(crate) fn end_dumps(running: &mut Vec<RunningDump>, stream: u64)
    ensures dumps { running.new.items ≡ filter (is_other stream) running.old.items }
    ensures room { vec_len running.old < vec_capacity running.old → vec_len running.new < vec_capacity running.new }
{
    running.retain(|dump| stream != dump.stream);
}

// Starts a dump of a stream, in place of one that runs under it. There is room for it.
pub(crate) fn begin_dump(running: &mut Vec<RunningDump>, alloc: Global, stream: u64)
    requires { vec_len running.old < vec_capacity running.old }
    ensures { map dump_of running.new.items ≡ begun_beside stream (map dump_of running.old.items) }
{
    end_dumps(running, stream);
    let dump = RunningDump {
        stream,
        routes: Routes::new(alloc),
        interrupted: false,
    };
    match running.push(dump) {
        Ok(()) => {}
        Err(_) => unreachable!(),
    }
}
