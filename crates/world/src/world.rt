ghost use Rattle.std.specs.Prelude.{◌≡◌, [], ◌∷◌, IsTrue, IfOk, OnOk, OnErr};
ghost use Rattle.srmt_outside.specs.Count.{next_count};
ghost use Rattle.srmt_outside.specs.Told.{Appends};
ghost use Rattle.mid_code.specs.Start.{FitLimits};
ghost use Rattle.world.specs.Written.{AppendsSome};
ghost use Rattle.world.specs.World.{Over, is_live, setting_of, opened, ask};

use mid_code::Pair;
use srmt_base::{Event, Limits};
use srmt_outside::{Failed, Outlet};
use std::alloc::{AllocError, Global};
use std::marker::Model;
use word_stream::{Request, Response};

/// What the protected program shares with the outside. It changes by requests alone.
#[derive(Debug, Drop)]
pub struct World {
    live: bool,
    // The input as the run was started with it: no request reads it yet.
    input: Vec<u8>,
}

impl Model for World {
    ghost use Rattle.world.specs.World.{WorldState};
    ghost use Rattle.world.specs.View.{world_of};

    ghost Value = { WorldState };

    ghost view = { λ w. world_of w.live w.input.items };
}

impl World {
    /// The world in which the pair's program starts.
    pub fn start(
        _alloc: Global,
        _pair: &Pair,
        input: Vec<u8>,
        _limits: Limits,
    ) -> Result<World, AllocError>
        requires { FitLimits _pair.now.program _limits }
        ensures { IfOk result (λ world. world ≡ opened (setting_of _pair.now input.items _limits)) }
    {
        Ok(World { live: true, input })
    }

    /// Whether it still answers requests. It does not after a failure, nor after the end of a run.
    pub fn live(&self) -> bool
        ensures { result ≡ is_live self.now }
    {
        self.live
    }

    /// How many calls of protected functions by binary code are to be answered: none, since no
    /// request calls binary code yet.
    pub fn calls_out(&self) -> u32
        ensures { result ≡ 0 }
    {
        0
    }

    /// Answers a request, and writes its events.
    pub fn ask<O: Outlet>(
        &mut self,
        _pair: &Pair,
        request: &Request,
        outlet: &mut O,
    ) -> Result<Response, Failed>
        requires { IsTrue (is_live self.old) }
        ensures world { OnOk result (self.new ≡ (ask self.old request.now).world) }
        ensures response { IfOk result (λ response. response ≡ (ask self.old request.now).response) }
        ensures events { OnOk result (Appends (O.events outlet.old) (O.events outlet.new)
            (ask self.old request.now).events) }

        // The events before the one that failed stay written, and the world answers no more.
        ensures dead { OnErr result (self.new ≡ Over) }
        ensures before { OnErr result (AppendsSome (O.events outlet.old) (O.events outlet.new)
            (ask self.old request.now).events) }

        // It fails exactly where the outlet has counted a fault.
        ensures stands { OnOk result (O.faults outlet.new ≡ O.faults outlet.old) }
        ensures counted { OnErr result (O.faults outlet.new ≡ next_count (O.faults outlet.old)) }
    {
        match *request {
            Request::Put { value, .. } => {
                self.write(Event::Byte((value % 256) as u8), outlet)?;
            }
            Request::Exit { value, .. } => {
                self.write(Event::Exit((value % 256) as u8), outlet)?;
                self.live = false;
            }
        }
        Ok(Response::Done)
    }

    // Writes one event, without which the world answers no more.
    fn write<O: Outlet>(&mut self, event: Event, outlet: &mut O) -> Result<(), Failed>
        requires { IsTrue (is_live self.old) }
        ensures same { OnOk result (self.new ≡ self.old) }
        ensures appends { OnOk result (Appends (O.events outlet.old) (O.events outlet.new) (event ∷ [])) }
        ensures dead { OnErr result (self.new ≡ Over) }
        ensures keeps { OnErr result (O.events outlet.new ≡ O.events outlet.old) }
        ensures stands { OnOk result (O.faults outlet.new ≡ O.faults outlet.old) }
        ensures counted { OnErr result (O.faults outlet.new ≡ next_count (O.faults outlet.old)) }
    {
        let written = outlet.event(event);
        self.live = written.is_ok();
        written
    }
}
