//! What a turn does next, by what it was told of a line or a node.

ghost use Rattle.std.specs.Prelude.{◌≡◌};

use crate::terms::{Found, Terms};
use crate::work::WorkAt;
use data_list::Walk;
use pm_alloc::Release;
use pm_words::codes::kind::MERGE;
use pm_words::codes::state::READY;
use pm_words::codes::status::GONE;
use pm_words::{KEY, LOG_LINES};
use smo_log::{Clear, Entry, ReadLine};
use updater_row_law::search_layer::{Floor, Set, Unset};
use version_lock::{GENERATION_UNIT, LAST_COUNT, generation_in};

impl Terms {
    ghost use Rattle.std.specs.Prelude.{◌≡◌, ◌+◌, ◌*◌, ◌<◌};
    ghost use Rattle.updater.specs.Works.{IsTerms, IsEntry, after_line, saw_state, lands, walks, changes, changed};
    ghost use Rattle.updater.specs.Works.{clears};

    /// The next line, or the first node.
    pub(crate) fn after_line(&self, line: u64) -> WorkAt
        requires terms { IsTerms self.now }
        requires line { line < 8 * self.now.layout.callers }
        ensures { result ≡ after_line self.now line }
    {
        if line + 1 < LOG_LINES * self.layout.callers() {
            return WorkAt::State { line: line + 1 };
        }
        WorkAt::Status { node: 0 }
    }

    /// It reads a line that is READY, whose state is loaded already.
    pub(crate) fn saw_state(&self, line: u64, state: u64) -> WorkAt
        requires terms { IsTerms self.now }
        requires line { line < 8 * self.now.layout.callers }
        ensures { result ≡ saw_state self.now line state }
    {
        if state != READY {
            return self.after_line(line);
        }
        WorkAt::Reading {
            read: ReadLine {
                layout: self.layout,
                line,
                offset: 1,
                words: [state, 0, 0, 0, 0, 0, 0],
            },
        }
    }

    /// It looks up the anchor in the search layer.
    pub(crate) fn lands(&self, line: u64, entry: Entry) -> WorkAt
        requires { IsTerms self.now }
        ensures { result ≡ lands self.now line entry }
    {
        WorkAt::Landing {
            line,
            entry,
            floor: Floor::new(self.layout, entry.anchor),
        }
    }

    /// It walks to the node of the anchor.
    pub(crate) fn walks(&self, line: u64, entry: Entry, hint: u64) -> WorkAt
        requires terms { IsTerms self.now }
        requires hint { hint < self.now.layout.nodes }
        ensures { result ≡ walks self.now line entry hint }
    {
        WorkAt::Walking {
            line,
            entry,
            walk: Walk::new(self.layout, self.generation, hint, entry.anchor),
        }
    }

    /// It leads the anchor to the node that has it, and to none where the node in whose range it lies has another.
    pub(crate) fn changes(&self, line: u64, entry: Entry, found: Found) -> WorkAt
        requires terms { IsTerms self.now }
        requires entry { IsEntry self.now.layout entry }
        requires found { found.node < self.now.layout.nodes }
        ensures { result ≡ changes self.now line entry found }
    {
        if are_same(found.low, entry.anchor) {
            let set = Set::new(self.layout, entry.anchor, found.node);
            return WorkAt::Setting { line, entry, set };
        }
        let unset = Unset::new(self.layout, entry.anchor);
        WorkAt::Unsetting { line, entry, unset }
    }

    /// The search layer is changed.
    pub(crate) fn changed(&self, line: u64, entry: Entry) -> WorkAt
        requires terms { IsTerms self.now }
        requires line { line < 8 * self.now.layout.callers }
        ensures { result ≡ changed self.now line entry }
    {
        if entry.kind == MERGE {
            return WorkAt::Stamping { line, entry };
        }
        self.clears(line)
    }

    /// It empties the line.
    pub(crate) fn clears(&self, line: u64) -> WorkAt
        requires terms { IsTerms self.now }
        requires line { line < 8 * self.now.layout.callers }
        ensures { result ≡ clears self.now line }
    {
        WorkAt::Clearing {
            clear: Clear::new(self.layout, line),
        }
    }
}

impl Terms {
    ghost use Rattle.std.specs.Prelude.{◌≡◌, ◌+◌, ◌<◌};
    ghost use Rattle.updater.specs.Works.{IsTerms, after_node, saw_status, saw_stamp, saw_version, after_count};

    /// The next node, or the first once more.
    pub(crate) fn after_node(&self, node: u64) -> WorkAt
        requires terms { IsTerms self.now }
        requires node { node < self.now.layout.nodes }
        ensures { result ≡ after_node self.now node }
    {
        if node + 1 < self.layout.nodes() {
            return WorkAt::Status { node: node + 1 };
        }
        WorkAt::Counting {
            node: 0,
            none_free: true,
        }
    }

    /// After the status of a node: its stamp where it is GONE, else the next node.
    pub(crate) fn saw_status(&self, node: u64, status: u64) -> WorkAt
        requires terms { IsTerms self.now }
        requires node { node < self.now.layout.nodes }
        ensures { result ≡ saw_status self.now node status }
    {
        if status == GONE {
            return WorkAt::Stamp { node };
        }
        self.after_node(node)
    }

    /// After the stamp of a GONE node: its version word where the release allows that stamp, else the next node.
    pub(crate) fn saw_stamp(&self, node: u64, stamp: u64) -> WorkAt
        requires terms { IsTerms self.now }
        requires node { node < self.now.layout.nodes }
        ensures { result ≡ saw_stamp self.now node stamp }
    {
        if stamp != 0 && stamp <= self.release {
            return WorkAt::Version { node };
        }
        self.after_node(node)
    }

    /// After the version word of a node that may become FREE: it is made so, but where it is worn.
    pub(crate) fn saw_version(&self, node: u64, version: u64) -> WorkAt
        requires terms { IsTerms self.now }
        requires node { node < self.now.layout.nodes }
        ensures { result ≡ saw_version self.now node version }
    {
        if is_worn(version, self.generation) {
            return self.after_node(node);
        }
        WorkAt::Releasing {
            release: Release::new(self.layout, node),
        }
    }

    /// It has loaded the status of each node up to this one.
    pub(crate) fn after_count(&self, node: u64, none_free: bool) -> WorkAt
        requires terms { IsTerms self.now }
        requires node { node < self.now.layout.nodes }
        ensures { result ≡ after_count self.now node none_free }
    {
        if node + 1 < self.layout.nodes() {
            return WorkAt::Counting {
                node: node + 1,
                none_free,
            };
        }
        WorkAt::Leaving { none_free }
    }
}

ghost use Rattle.version_lock.specs.Versions.{is_worn_word};
ghost use Rattle.updater_row_law.specs.RowStages.{are_same};

/// Whether the node's lock can't be taken any more in this generation.
fn is_worn(version: u64, generation: u64) -> bool
    ensures { result ≡ is_worn_word version generation }
{
    generation_in(version) == generation && version % GENERATION_UNIT / 2 == LAST_COUNT
}

/// Whether these are the same words.
fn are_same(one: [u64; KEY], other: [u64; KEY]) -> bool
    ensures { result ≡ are_same one other }
{
    one[0] == other[0] && one[1] == other[1] && one[2] == other[2]
}
