//! Jobs that threads push and take, and a word that closes the pool.
#![tactic(auto)]

ghost use Rattle.std.specs.Prelude.{◌≡◌, ℕ, ◌+◌, ◌*◌, ◌++◌, ◌∷◌, [], true, false, ◌||◌, IfOk, MatchResult};
ghost use Rattle.job_pool.specs.Taking.{Takes};
ghost use Rattle.job_pool.specs.Passes.{PoolId, HasAll};

mod rules;

use crate::rules::{Bell, Calls, Cut, Echo, Fair, Got, Hears, Put};
pub use crate::rules::{Hand, Heard};
use atomic_table::{Seat, Table};
use crossbeam_queue::{RuledSegQueue, SegPass};
use seq_values::CellId;
use seq_vector::NoMemory;
use std::alloc::Global;
use std::marker::Model;
use std::sync::Wait;

type Line = RuledSegQueue<CellId, Hand, Fair>;

type Hook = SegPass<CellId, Hand>;

/// What `take` answers.
#[derive(Clone, Copy, Debug, PartialEq, Eq)]
pub enum Taken {
    /// A job that was pushed. It is handed to nobody else.
    Job(CellId),
    /// The pool was empty at a step of the call.
    Nothing,
    /// It was empty, and it had been closed.
    Closed,
}

/// Jobs that threads share. Between any two steps the jobs that all passes were handed, with those still in the pool, are those that all passes pushed, each as often.
pub struct JobPool {
    line: Line,
    bell: Table<(), Heard, (), Bell, Global>,
}

impl Model for JobPool {
    ghost use Rattle.std.specs.Prelude.{◌≡◌};
    ghost use Rattle.job_pool.specs.Passes.{PoolId};

    ghost Value = { PoolId };

    ghost view = { λ p. record { line = p.line; bell = p.bell.shared.table_id } };

    ghost invariant = { λ p. p.bell.shared.table_id.words ≡ 1 };
}

impl Drop for JobPool {
    fn drop(self) {
        let JobPool { line, bell } = self;
        line.destroy();
        drop(bell);
    }
}

/// What a thread pushed to a pool and was handed by it, whether it knows of a close, and which part of all passes of the pool it is.
#[derive(Drop)]
pub struct JobPass {
    hook: Hook,
    seat: Seat<(), Heard>,
}

impl Model for JobPass {
    ghost use Rattle.std.specs.Prelude.{◌≡◌, ◌<◌, [], None};
    ghost use Rattle.job_pool.specs.Passes.{Jobs};

    ghost Value = { Jobs };

    ghost view = { λ p. record { pool = record { line = record { web = p.hook.web; heap = p.hook.heap }; bell = p.seat.table_id }; pushed = p.hook.me.view.client.put; handed = p.hook.me.view.client.taken; part = p.hook.me.view.client.part; whole = p.hook.me.view.client.whole; closed = p.seat.me.0.knows } };

    ghost invariant = { λ p. (p.hook.me.hand ≡ None) × (p.hook.me.spare ≡ None) × (p.seat.me.1 ≡ []) × (0 < p.hook.me.view.client.part) × (0 < p.hook.me.view.client.whole) };
}

impl JobPool {
    /// An empty pool that is open, and its first pass, which is all of its passes.
    pub fn new(alloc: Global) -> Result<(JobPool, JobPass), NoMemory>
        ensures { IfOk result (λ r. r.1 ≡ record { pool = r.0; pushed = []; handed = []; part = 1; whole = 1; closed = false }) }
    {
        let Ok((bell, seat)) = Table::of_words(alloc, &[0], &()) else {
            return Err(NoMemory);
        };
        let Ok((line, hook)) = Line::with_rule(alloc) else {
            return Err(NoMemory);
        };
        Ok((JobPool { line, bell }, JobPass { hook, seat }))
    }

    /// Adds a job. A refused job is handed back.
    pub fn push<R: Wait>(
        &self,
        rt: &R,
        pass: &mut JobPass,
        job: CellId,
    ) -> Result<(), (CellId, NoMemory)>
        requires pool { pass.old.pool ≡ self.now }
        ensures ok { MatchResult result (λ _. pass.new ≡ record pass.old { pushed = pass.old.pushed ++ job ∷ [] }) (λ r. (r.0 ≡ job) × (pass.new ≡ pass.old)) }
    {
        match self.line.push_as::<Put, R>(rt, &mut pass.hook, job) {
            Ok(()) => Ok(()),
            Err(back) => Err((back, NoMemory)),
        }
    }

    /// Takes a job. It takes no memory.
    pub fn take<R: Wait>(&self, rt: &R, pass: &mut JobPass) -> Taken
        requires pool { pass.old.pool ≡ self.now }
        ensures take { Takes pass.old result pass.new }
    {
        match self.line.pop_as::<Got, R>(rt, &mut pass.hook) {
            Some(job) => Taken::Job(job),
            None => {
                if self.bell.shared.load::<Hears>(&mut pass.seat, 0) == 1 {
                    Taken::Closed
                } else {
                    Taken::Nothing
                }
            }
        }
    }

    /// Closes the pool. Jobs that are in it are still handed out. It takes no memory.
    pub fn close(&self, pass: &mut JobPass)
        requires pool { pass.old.pool ≡ self.now }
        ensures closed { pass.new ≡ record pass.old { closed = true } }
    {
        self.bell.shared.store::<Calls>(&mut pass.seat, 0, 1);
    }

    /// A pass for another thread. It pushed nothing and was handed nothing, and knows of a close where this one does. Each of the two is half of what this one was.
    pub fn split(&self, pass: &mut JobPass) -> Result<JobPass, NoMemory>
        requires pool { pass.old.pool ≡ self.now }
        ensures new { IfOk result (λ r. r ≡ record pass.old { pushed = []; handed = []; whole = pass.old.whole + pass.old.whole }) }
        ensures old { pass.new ≡ record pass.old { whole = pass.old.whole + pass.old.whole } }
    {
        let hook = self.line.another::<Cut>(&mut pass.hook);
        let seat = self.bell.shared.split_seat::<Echo>(&mut pass.seat);
        Ok(JobPass { hook, seat })
    }

    /// Takes another pass in: what it pushed and was handed, what it knows, and its part.
    pub fn join(&self, pass: &mut JobPass, other: JobPass)
        requires pool { (pass.old.pool ≡ self.now) × (other.pool ≡ self.now) }
        ensures lists { (pass.new.pool ≡ pass.old.pool) × (pass.new.pushed ≡ pass.old.pushed ++ other.pushed) × (pass.new.handed ≡ pass.old.handed ++ other.handed) }
        ensures part { (pass.new.part ≡ pass.old.part * other.whole + other.part * pass.old.whole) × (pass.new.whole ≡ pass.old.whole * other.whole) }
        ensures closed { pass.new.closed ≡ pass.old.closed || other.closed }
    {
        let JobPass { hook, seat } = other;
        self.line.absorb::<Cut>(&mut pass.hook, hook);
        self.bell.shared.join_seat::<Echo>(&mut pass.seat, seat);
    }
}
