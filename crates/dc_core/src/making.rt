//! A new core.

ghost use Rattle.std.specs.Prelude.{◌≡◌, ◌≤◌, map, replicate, IfOk};
ghost use Rattle.dc_core.specs.Machine.{idle, opening};
ghost use Rattle.dc_core.specs.Shown.{actor_shown, state_of};
ghost use Rattle.dc_names.specs.declared.limits.TheConstants.{MOST_INODES, MOST_ROWS};

use crate::actor::Actor;
use crate::state::State;
use dc_names::NoMemory;
use dc_plain::PlainTree;
use dc_row::ROW_WORDS;
use std::alloc::Global;

impl State {
    /// Empty rows and actors without calls over the root directory alone.
    pub fn new(alloc: Global, rows: u64, actors: u64, max_inodes: u64) -> Result<State, NoMemory>
        requires few { rows ≤ MOST_ROWS }
        requires least { 1 ≤ max_inodes }
        requires most { max_inodes ≤ MOST_INODES }
        ensures { IfOk result (λ state. state_of state ≡ opening max_inodes rows actors) }
    {
        Ok(State {
            words: vec![in alloc; 0; 2 + rows as usize * ROW_WORDS]?,
            tree: PlainTree::new(alloc, max_inodes)?,
            actors: idle_actors(alloc, actors)?,
            finished: Vec::new(alloc),
            rows,
        })
    }
}

/// Actors without calls.
fn idle_actors(alloc: Global, actors: u64) -> Result<Vec<Actor>, NoMemory>
    ensures { IfOk result (λ idlers. map actor_shown idlers.items ≡ replicate actors idle) }
{
    let mut idlers = Vec::new(alloc);
    let mut made = 0;
    while made < actors {
        idlers.push(Actor::new(alloc))?;
        made += 1;
    }
    Ok(idlers)
}
