//! Groups that are met although their targets aren't done, as a depend is added.

ghost use Rattle.std.specs.Prelude.{◌≡◌, ◌<◌, length, slice_get, slice_set, Some};
ghost use Rattle.depend_edges.specs.declared.listed.Count.{Count};
ghost use Rattle.depend_graph.specs.Graph.{is_flagged};
ghost use Rattle.depend_graph.specs.Marked.{marked, marked_counts};

use depend_edges::Count;

/// Each group is met where a mark stands at its place.
pub(crate) fn mark_all(counts: &mut Vec<Count>, marks: &[bool])
    ensures { counts.new.items ≡ marked_counts counts.old.items marks.now }
{
    for place in 0..counts.len() {
        mark_one(counts, place, is_marked(marks, place));
    }
}

// The group at a place is met where it is marked.
fn mark_one(counts: &mut Vec<Count>, place: usize, mark: bool)
    requires { place < length counts.old.items }
    ensures { (c : Count) → slice_get counts.old.items place ≡ Some c → counts.new.items ≡ slice_set counts.old.items place (marked mark c) }
{
    let count = counts[place];
    counts[place] = Count {
        undone: count.undone,
        met: count.met || mark,
    };
}

// Whether a mark stands at the place.
fn is_marked(marks: &[bool], place: usize) -> bool
    ensures { result ≡ is_flagged marks.now place }
{
    match marks.get(place) {
        None => false,
        Some(mark) => *mark,
    }
}
