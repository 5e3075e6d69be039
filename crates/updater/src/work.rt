//! A turn under the updater lock. It goes over the log lines, then over the nodes, and over the nodes again:
//!
//! | State | Does | Then |
//! |---|---|---|
//! | `State` | loads the state of a line | READY: `Reading`; else the next line |
//! | `Reading` | loads what the line says | `Landing` |
//! | `Landing` | looks up the anchor in the search layer | `Walking` from that node |
//! | `Walking` | walks to the node of the anchor | where the walk gives up, it leaves the line |
//! | `Seeing` | loads that node's version word again | where it differs, it leaves the line |
//! | `Setting` | leads the anchor to that node, which has this anchor | of a merge `Stamping`, else `Clearing` |
//! | `Unsetting` | leads the anchor to no node, where that one has another | likewise |
//! | `Stamping` | stores the stamp of the merged node | `Clearing` |
//! | `Clearing` | stores EMPTY into the line | the next line |
//! | `Status`, `Stamp`, `Version` | loads these of a node | where it is no node to be freed, the next node |
//! | `Releasing` | stores stamp 0, and FREE | the next node |
//! | `Counting` | loads the status of each node | `Leaving` |
//! | `Leaving` | gives back the updater lock | it is done |
//!
//! What `Setting` and `Unsetting` store is durable before the line is EMPTY: a crash finds the line, or its change.

ghost use Rattle.std.specs.Prelude.{◌≡◌, ℕ, ◌+◌, ◌*◌, ◌<◌, ◌≤◌};

use crate::terms::{Found, Tally, Terms, Turned};
use data_list::{Walk, Walked};
use pm_alloc::Release;
use pm_words::codes::state::READY;
use pm_words::codes::status::{FREE, GONE};
use pm_words::codes::updater_lock::UNTAKEN;
use pm_words::offsets::shared::UPDATER;
use pm_words::offsets::{node, volatile};
use pm_words::{Action, LOG_LINES, Layout, Machine, Memory, Steps, Turn};
use smo_log::{Clear, Entry, ReadLine};
use std::sync::ledger::Ledger;
use updater_row_law::search_layer::{Floor, Set, Unset};

/// A turn of the updater, which has taken the updater lock for it.
#[derive(Clone, Copy)]
pub struct Work {
    pub terms: Terms,
    pub tally: Tally,
    pub at: WorkAt,
}

/// What it does next.
#[derive(Clone, Copy)]
pub enum WorkAt {
    State {
        line: u64,
    },
    Reading {
        read: ReadLine,
    },
    Landing {
        line: u64,
        entry: Entry,
        floor: Floor,
    },
    Walking {
        line: u64,
        entry: Entry,
        walk: Walk,
    },
    Seeing {
        line: u64,
        entry: Entry,
        found: Found,
    },
    Setting {
        line: u64,
        entry: Entry,
        set: Set,
    },
    Unsetting {
        line: u64,
        entry: Entry,
        unset: Unset,
    },
    Stamping {
        line: u64,
        entry: Entry,
    },
    Clearing {
        clear: Clear,
    },
    Status {
        node: u64,
    },
    Stamp {
        node: u64,
    },
    Version {
        node: u64,
    },
    Releasing {
        release: Release,
    },
    /// Whether no status that it loaded so far was FREE.
    Counting {
        node: u64,
        none_free: bool,
    },
    Leaving {
        none_free: bool,
    },
}

impl Machine for Work {
    ghost use Rattle.updater.specs.Works.{IsWork, work_asks, work_turned, work_takes, work_left};

    type Answer = Turned;

    ghost fits = { IsWork };

    ghost asks = { work_asks };

    ghost turned = { work_turned };

    ghost takes = { work_takes };

    ghost left = { work_left };

    #[inline(always)]
    fn action(&self) -> Action {
        let layout = self.terms.layout;
        match &self.at {
            WorkAt::State { line } => ReadLine::new(layout, *line).action(),
            WorkAt::Reading { read } => read.action(),
            WorkAt::Landing { floor, .. } => floor.action(),
            WorkAt::Walking { walk, .. } => walk.action(),
            WorkAt::Seeing { found, .. } => {
                Action::Load(layout.cached(layout.node_word(found.node, node::VERSION)))
            }
            WorkAt::Setting { set, .. } => set.action(),
            WorkAt::Unsetting { unset, .. } => unset.action(),
            WorkAt::Stamping { entry, .. } => Action::Store(
                layout.node_volatile(entry.node, volatile::STAMP),
                self.terms.stamp,
            ),
            WorkAt::Clearing { clear } => clear.action(),
            WorkAt::Status { node } | WorkAt::Counting { node, .. } => {
                Action::Load(layout.node_volatile(*node, volatile::STATUS))
            }
            WorkAt::Stamp { node } => Action::Load(layout.node_volatile(*node, volatile::STAMP)),
            WorkAt::Version { node } => {
                Action::Load(layout.cached(layout.node_word(*node, node::VERSION)))
            }
            WorkAt::Releasing { release } => release.action(),
            WorkAt::Leaving { .. } => Action::Store(UPDATER, UNTAKEN),
        }
    }

    fn resume(self, got: u64) -> Turn<Work, Turned> {
        let mut next = self;
        match next.advance(got) {
            None => Turn::Go(next),
            Some(answer) => Turn::Done(answer),
        }
    }
}

impl Work {
    ghost use Rattle.std.specs.Prelude.{◌≡◌, ◌≤◌};
    ghost use Rattle.pm_words.specs.Layouts.{IsLayout};
    ghost use Rattle.pm_words.specs.Turns.{GoesBelow};
    ghost use Rattle.pm_words.specs.Turns.{AdvancesTo};
    ghost use Rattle.updater.specs.Works.{IsWork, work_from, work_takes, work_turned, work_left};

    /// A turn with this stamp and release, in the generation of this run.
    pub fn new(layout: Layout, generation: u64, stamp: u64, release: u64) -> Work
        requires layout { IsLayout layout }
        requires stamp { 1 ≤ stamp }
        ensures new { result ≡ work_from layout generation stamp release }
        ensures sound { IsWork result }
    {
        Work {
            terms: Terms {
                layout,
                generation,
                stamp,
                release,
            },
            tally: Tally {
                applied: 0,
                left: 0,
                freed: 0,
            },
            at: WorkAt::State { line: 0 },
        }
    }

    /// Tells it in place the number that its action gave. It goes on, or is done where there is an answer.
    #[inline(always)]
    pub fn advance(&mut self, got: u64) -> Option<Turned>
        requires { work_takes self.old got }
        ensures turned { AdvancesTo (work_turned self.old got) self.new result }
        ensures fewer { GoesBelow work_left (work_left self.old) (work_turned self.old got) }
    {
        match &self.at {
            WorkAt::State { .. } => self.told_state(got),
            WorkAt::Reading { .. } => self.told_word(got),
            WorkAt::Landing { .. } => self.told_of_layer(got),
            WorkAt::Walking { .. } => self.told_of_walk(got),
            WorkAt::Seeing { line, entry, found } => {
                let (line, entry, found) = (*line, *entry, *found);
                self.saw_again(line, entry, found, got);
            }
            WorkAt::Setting { .. } => self.told_of_set(got),
            WorkAt::Unsetting { .. } => self.told_of_unset(got),
            WorkAt::Stamping { line, .. } => {
                let line = *line;
                self.clears(line);
            }
            WorkAt::Clearing { clear } => {
                let line = clear.line;
                self.emptied(line);
            }
            WorkAt::Status { .. } => self.told_status(got),
            WorkAt::Stamp { node } => {
                let node = *node;
                self.saw_stamp(node, got);
            }
            WorkAt::Version { node } => {
                let node = *node;
                self.saw_version(node, got);
            }
            WorkAt::Releasing { .. } => self.told_of_release(got),
            WorkAt::Counting { .. } => self.told_count(got),
            WorkAt::Leaving { none_free } => return Some(self.answer(*none_free)),
        }
        None
    }
}

// Where it goes over nodes, it does so in a loop.
impl Work {
    ghost use Rattle.machine_runs.specs.Runs.{IsOnRun, MayGo};
    ghost use Rattle.updater.specs.Works.{work_asks, work_left, work_takes, work_turned};

    /// Where it loads the status of nodes, it loads that of node after node in a loop, with nothing between, up to the
    /// first that is GONE or the last; where it counts, up to the last. So a turn that is alone needn't find out at
    /// each node what to do. `steps` counts the events.
    pub fn passes<L: Ledger>(&mut self, memory: &mut Memory, steps: &mut Steps<L>)
        requires { MayGo work_asks work_turned work_left work_takes memory.old.layout memory.old.words self.old }
        ensures { IsOnRun work_asks work_turned work_left memory.old memory.new self.old self.new steps.old steps.new }
    {
        match &self.at {
            WorkAt::Status { .. } => self.passes_status(memory, steps),
            WorkAt::Counting { .. } => self.passes_count(memory, steps),
            _ => {}
        }
    }

    /// It goes over nodes that aren't GONE.
    fn passes_status<L: Ledger>(&mut self, memory: &mut Memory, steps: &mut Steps<L>)
        requires { MayGo work_asks work_turned work_left work_takes memory.old.layout memory.old.words self.old }
        ensures { IsOnRun work_asks work_turned work_left memory.old memory.new self.old self.new steps.old steps.new }
    {
        'nodes: loop {
            let WorkAt::Status { node } = &self.at else {
                return;
            };
            let address = self.terms.layout.node_volatile(*node, volatile::STATUS);
            let status = memory.act(Action::Load(address), steps);
            self.told_status(status);
        }
    }

    /// It counts nodes.
    fn passes_count<L: Ledger>(&mut self, memory: &mut Memory, steps: &mut Steps<L>)
        requires { MayGo work_asks work_turned work_left work_takes memory.old.layout memory.old.words self.old }
        ensures { IsOnRun work_asks work_turned work_left memory.old memory.new self.old self.new steps.old steps.new }
    {
        'nodes: loop {
            let WorkAt::Counting { node, .. } = &self.at else {
                return;
            };
            let address = self.terms.layout.node_volatile(*node, volatile::STATUS);
            let status = memory.act(Action::Load(address), steps);
            self.told_count(status);
        }
    }
}

// What it is told in the states in which it stays for more than one turn: it goes on in place while it stays in one.
impl Work {
    ghost use Rattle.std.specs.Prelude.{◌≡◌, ℕ, Bool, ◌&&◌, ◌==◌, not};
    ghost use Rattle.pm_words.specs.Codes.{free_status};
    ghost use Rattle.smo_log.specs.Reads.{read_turned};
    ghost use Rattle.tree_floor.specs.Floors.{floor_turned};
    ghost use Rattle.data_list.specs.Walks.{walk_turned};
    ghost use Rattle.updater_row_law.specs.tree_update.specs.Sets.{set_turned, unset_turned};
    ghost use Rattle.pm_alloc.specs.Gone.{release_turned};
    ghost use Rattle.updater.specs.declared.work.WorkAt.TheVariants as WorkAt;
    ghost use Rattle.updater.specs.Works.{work_takes, saw_state, saw_status, after_count, on};
    ghost use Rattle.updater.specs.Works.{has_read, has_landed, has_walked, has_set, has_unset, has_released};

    /// The state of a line: on to the next line in place where this one isn't READY.
    fn told_state(&mut self, got: u64)
        requires { work_takes self.old got }
        ensures { (line : ℕ) → self.old.at ≡ WorkAt.State line
            → self.new ≡ on self.old (saw_state self.old.terms line got) }
    {
        let lines = LOG_LINES * self.terms.layout.callers();
        let WorkAt::State { line } = &mut self.at else {
            return;
        };
        if got != READY && *line + 1 < lines {
            *line += 1;
            return;
        }
        let line = *line;
        self.saw_state(line, got);
    }

    /// A word of a line: it has read the line with the last one.
    fn told_word(&mut self, got: u64)
        requires { work_takes self.old got }
        ensures { (read : ReadLine) → self.old.at ≡ WorkAt.Reading read
            → self.new ≡ has_read self.old read.line (read_turned read got) }
    {
        let WorkAt::Reading { read } = &mut self.at else {
            return;
        };
        match read.resume(got) {
            Turn::Go(next) => *read = next,
            Turn::Done(seen) => {
                let line = read.line;
                self.lands(line, seen.entry);
            }
        }
    }

    /// A word of the search layer: the last one leads to the node from which it walks.
    fn told_of_layer(&mut self, got: u64)
        requires { work_takes self.old got }
        ensures { (line : ℕ) (entry : Entry) (floor : Floor) → self.old.at ≡ WorkAt.Landing line entry floor
            → self.new ≡ has_landed self.old line entry (floor_turned floor got) }
    {
        let WorkAt::Landing { line, entry, floor } = &mut self.at else {
            return;
        };
        let Some(hint) = floor.advance(got) else {
            return;
        };
        let (line, entry) = (*line, *entry);
        self.walks(line, entry, hint);
    }

    /// A word of the walk, which ends with the last one.
    fn told_of_walk(&mut self, got: u64)
        requires { work_takes self.old got }
        ensures { (line : ℕ) (entry : Entry) (walk : Walk) → self.old.at ≡ WorkAt.Walking line entry walk
            → self.new ≡ has_walked self.old line entry (walk_turned walk got) }
    {
        let WorkAt::Walking { line, entry, walk } = &mut self.at else {
            return;
        };
        let Some(walked) = walk.advance(got) else {
            return;
        };
        let (line, entry) = (*line, *entry);
        self.walked(line, entry, walked);
    }

    /// A word of the set, with the last of which the layer is changed.
    fn told_of_set(&mut self, got: u64)
        requires { work_takes self.old got }
        ensures { (line : ℕ) (entry : Entry) (set : Set) → self.old.at ≡ WorkAt.Setting line entry set
            → self.new ≡ has_set self.old line entry (set_turned set got) }
    {
        let WorkAt::Setting { line, entry, set } = &mut self.at else {
            return;
        };
        if set.advance(got).is_some() {
            let (line, entry) = (*line, *entry);
            self.changed(line, entry);
        }
    }

    /// A word of the unset, with the last of which the layer is changed.
    fn told_of_unset(&mut self, got: u64)
        requires { work_takes self.old got }
        ensures { (line : ℕ) (entry : Entry) (unset : Unset) → self.old.at ≡ WorkAt.Unsetting line entry unset
            → self.new ≡ has_unset self.old line entry (unset_turned unset got) }
    {
        let WorkAt::Unsetting { line, entry, unset } = &mut self.at else {
            return;
        };
        if unset.advance(got).is_some() {
            let (line, entry) = (*line, *entry);
            self.changed(line, entry);
        }
    }

    /// The status of a node: on to the next node in place where this one isn't GONE.
    fn told_status(&mut self, got: u64)
        requires { work_takes self.old got }
        ensures { (node : ℕ) → self.old.at ≡ WorkAt.Status node
            → self.new ≡ on self.old (saw_status self.old.terms node got) }
    {
        let nodes = self.terms.layout.nodes();
        let WorkAt::Status { node } = &mut self.at else {
            return;
        };
        if got != GONE && *node + 1 < nodes {
            *node += 1;
            return;
        }
        let node = *node;
        self.saw_status(node, got);
    }

    /// What an action of a release gave: the node is FREE with the last one.
    fn told_of_release(&mut self, got: u64)
        requires { work_takes self.old got }
        ensures { (release : Release) → self.old.at ≡ WorkAt.Releasing release
            → self.new ≡ has_released self.old release.node (release_turned release got) }
    {
        let WorkAt::Releasing { release } = &mut self.at else {
            return;
        };
        match release.resume(got) {
            Turn::Go(next) => *release = next,
            Turn::Done(_) => {
                let node = release.node;
                self.freed(node);
            }
        }
    }

    /// The status of a node, as it counts: on to the next node in place while there is one.
    fn told_count(&mut self, got: u64)
        requires { work_takes self.old got }
        ensures { (node : ℕ) (so_far : Bool) → self.old.at ≡ WorkAt.Counting node so_far
            → self.new ≡ on self.old (after_count self.old.terms node (so_far && not (got == free_status))) }
    {
        let nodes = self.terms.layout.nodes();
        let WorkAt::Counting { node, none_free } = &mut self.at else {
            return;
        };
        *none_free = *none_free && got != FREE;
        if *node + 1 < nodes {
            *node += 1;
            return;
        }
        let none_free = *none_free;
        self.has_counted(none_free);
    }
}

// What makes another state is in functions of their own, since a function clears the room of its states as it begins,
// whichever arm runs, and a change of the layer has a large one.
impl Work {
    ghost use Rattle.std.specs.Prelude.{◌≡◌, ◌+◌, ◌*◌, ◌<◌};
    ghost use Rattle.pm_words.specs.Layouts.{IsLayout};
    ghost use Rattle.updater.specs.declared.work.WorkAt.TheVariants as WorkAt;
    ghost use Rattle.updater.specs.Works.{IsTerms, IsEntry, saw_state, lands, walks, walk_ended, saw_again, leaves};
    ghost use Rattle.updater.specs.Works.{changed, clears, emptied, saw_status, saw_stamp, saw_version, freed, on};
    ghost use Rattle.updater.specs.Works.{turned_of};

    /// It leaves this line as it is.
    fn leaves(&mut self, line: u64)
        requires terms { IsTerms self.old.terms }
        requires line { line < 8 * self.old.terms.layout.callers }
        requires room { self.old.tally.left < 128 }
        ensures { self.new ≡ leaves self.old line }
    {
        self.tally.left += 1;
        self.at = self.terms.after_line(line);
    }

    /// Its walk has ended.
    fn walked(&mut self, line: u64, entry: Entry, walked: Walked)
        requires terms { IsTerms self.old.terms }
        requires line { line < 8 * self.old.terms.layout.callers }
        requires room { self.old.tally.left < 128 }
        ensures { self.new ≡ walk_ended self.old line entry walked }
    {
        match walked {
            Walked::Again(_) => self.leaves(line),
            Walked::Target(target) => {
                let low = target.low;
                let found = Found {
                    node: target.node,
                    version: target.version,
                    low,
                };
                self.at = WorkAt::Seeing { line, entry, found };
            }
        }
    }

    /// It has loaded the version word of the line's node once more.
    fn saw_again(&mut self, line: u64, entry: Entry, found: Found, version: u64)
        requires terms { IsTerms self.old.terms }
        requires line { line < 8 * self.old.terms.layout.callers }
        requires room { self.old.tally.left < 128 }
        requires entry { IsEntry self.old.terms.layout entry }
        requires found { found.node < self.old.terms.layout.nodes }
        ensures { self.new ≡ saw_again self.old line entry found version }
    {
        if version == found.version {
            self.at = self.terms.changes(line, entry, found);
        } else {
            self.leaves(line);
        }
    }

    /// It has the state of this line: it reads the line, or goes on behind it.
    fn saw_state(&mut self, line: u64, state: u64)
        requires terms { IsTerms self.old.terms }
        requires line { line < 8 * self.old.terms.layout.callers }
        ensures { self.new ≡ on self.old (saw_state self.old.terms line state) }
    {
        self.at = self.terms.saw_state(line, state);
    }

    /// It has read this line, and looks its anchor up.
    fn lands(&mut self, line: u64, entry: Entry)
        requires terms { IsTerms self.old.terms }
        ensures { self.new ≡ on self.old (lands self.old.terms line entry) }
    {
        self.at = self.terms.lands(line, entry);
    }

    /// It walks from the node that the layer leads to.
    fn walks(&mut self, line: u64, entry: Entry, hint: u64)
        requires terms { IsTerms self.old.terms }
        requires hint { hint < self.old.terms.layout.nodes }
        ensures { self.new ≡ on self.old (walks self.old.terms line entry hint) }
    {
        self.at = self.terms.walks(line, entry, hint);
    }

    /// The search layer is changed.
    fn changed(&mut self, line: u64, entry: Entry)
        requires terms { IsTerms self.old.terms }
        requires line { line < 8 * self.old.terms.layout.callers }
        ensures { self.new ≡ on self.old (changed self.old.terms line entry) }
    {
        self.at = self.terms.changed(line, entry);
    }

    /// It empties this line.
    fn clears(&mut self, line: u64)
        requires terms { IsTerms self.old.terms }
        requires line { line < 8 * self.old.terms.layout.callers }
        ensures { self.new ≡ on self.old (clears self.old.terms line) }
    {
        self.at = self.terms.clears(line);
    }

    /// It has emptied this line.
    fn emptied(&mut self, line: u64)
        requires terms { IsTerms self.old.terms }
        requires line { line < 8 * self.old.terms.layout.callers }
        requires room { self.old.tally.applied < 128 }
        ensures { self.new ≡ emptied self.old line }
    {
        self.tally.applied += 1;
        self.at = self.terms.after_line(line);
    }

    /// It has the status of this node.
    fn saw_status(&mut self, node: u64, status: u64)
        requires terms { IsTerms self.old.terms }
        requires node { node < self.old.terms.layout.nodes }
        ensures { self.new ≡ on self.old (saw_status self.old.terms node status) }
    {
        self.at = self.terms.saw_status(node, status);
    }

    /// It has the stamp of this node, which is GONE.
    fn saw_stamp(&mut self, node: u64, stamp: u64)
        requires terms { IsTerms self.old.terms }
        requires node { node < self.old.terms.layout.nodes }
        ensures { self.new ≡ on self.old (saw_stamp self.old.terms node stamp) }
    {
        self.at = self.terms.saw_stamp(node, stamp);
    }

    /// It has the version word of this node, whose stamp the release allows.
    fn saw_version(&mut self, node: u64, version: u64)
        requires terms { IsTerms self.old.terms }
        requires node { node < self.old.terms.layout.nodes }
        ensures { self.new ≡ on self.old (saw_version self.old.terms node version) }
    {
        self.at = self.terms.saw_version(node, version);
    }

    /// It has made this node FREE.
    fn freed(&mut self, node: u64)
        requires terms { IsTerms self.old.terms }
        requires node { node < self.old.terms.layout.nodes }
        requires room { self.old.tally.freed < 4096 }
        ensures { self.new ≡ freed self.old node }
    {
        self.tally.freed += 1;
        self.at = self.terms.after_node(node);
    }

    /// What it has done.
    fn answer(&self, none_free: bool) -> Turned
        ensures { result ≡ turned_of self.now.tally none_free }
    {
        Turned {
            applied: self.tally.applied,
            left: self.tally.left,
            freed: self.tally.freed,
            none_free,
        }
    }

    /// It has the statuses of all nodes, and gives the updater lock back.
    fn has_counted(&mut self, none_free: bool)
        ensures { self.new ≡ on self.old (WorkAt.Leaving none_free) }
    {
        self.at = WorkAt::Leaving { none_free };
    }
}
