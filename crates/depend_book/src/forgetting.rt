//! The depends of a job that waits no more.

ghost use Rattle.std.specs.Prelude.{◌≡◌};
ghost use Rattle.farm_types.specs.Finish.{without_waiter};
ghost use Rattle.farm_types.specs.Rising.{IsRising, depend_key};
ghost use Rattle.depend_book.specs.Book.{graph_without, marks_of, without_waiter_in};
ghost use Rattle.depend_book.specs.Forgotten.{marks_among};

use crate::depends::Depends;
use crate::row_list::RowList;
use depend_graph::Graph;
use farm_types::JobNo;

impl Depends {
    /// The depends in which the job waits go, with their groups. It takes no memory, and gives their groups' back.
    pub fn forget_waiter(&mut self, job: JobNo)
        ensures book { self.new ≡ without_waiter_in self.old job }
        ensures marks { marks_of self.new.graph.depends ≡ marks_among self.new.rows (marks_of self.old.graph.depends) }
    {
        forget_all(&mut self.graph, &mut self.rows, job);
    }
}

// The depends in which the job waits go, from the last one on.
fn forget_all(graph: &mut Graph, rows: &mut RowList, job: JobNo)
    requires { IsRising depend_key 1 rows.old.rows rows.old.next }
    ensures graph { graph.new ≡ graph_without job rows.old.rows graph.old }
    ensures rows { rows.new.rows ≡ without_waiter job rows.old.rows }
    ensures next { rows.new.next ≡ rows.old.next }
{
    while let Some(depend) = rows.take_newest(job) {
        graph.forget(depend);
    }
}
