//! Laws of an access of an index: the model of the index and SQL's meaning.
ghost use Rattle.std.specs.Prelude.{◌≡◌, ℕ, Some, length};
ghost use Rattle.ob_base.specs.Stored.{Stored};
ghost use Rattle.ob_row.specs.Rows.{Row};
ghost use Rattle.ob_row.specs.Slots.{rows};
ghost use Rattle.ob_sql.specs.declared.stmt.Stmt.{Stmt};
ghost use Rattle.ob_mean.specs.Verdict.{Held, Tables, IsIndexed, database, keyed_table, went};
ghost use Rattle.ob_path.specs.Access.{Went, access};
ghost use Rattle.ob_row.specs.Keys.{row_key, key_at};
ghost use Rattle.ob_path.specs.States.{State, Stands, held};
ghost use Rattle.ob_verdict.specs.Answering.{Answered};
ghost use Rattle.ob_mean.specs.Keyed.{Ask, Put, op_of, ask_of};
ghost use Rattle.ob_mean.specs.Step.{accepted_next};
ghost use Rattle.ob_verdict.specs.Asking.{FitsIndex, IsNotPut, Settles, stepped};
ghost use Rattle.ob_verdict.specs.Settling.{AccessSettles};

/// An access of an index that stands leaves the rows that SQL's meaning leaves, with distinct keys, in an index that stands.
pub fn settles_indexed()
    ensures { (n place height draw : ℕ) (s : State Row) (ask : Ask) (w : Went Row)
        → length s.leaves ≡ n → Stands (row_key n place) height s → FitsIndex n place ask (held s)
        → access (row_key n place) height s (op_of n ask) draw ≡ Some w
        → Settles n place height w (stepped place ask (held s)) }
{}

/// An access of an index that stands by a row whose key is there, or is none of the index, leaves the rows that there were.
pub fn settles_refused()
    ensures { (n place height draw : ℕ) (s : State Row) (row : Row) (w : Went Row)
        → length s.leaves ≡ n → Stands (row_key n place) height s → IsNotPut n place row (held s)
        → access (row_key n place) height s (op_of n (Put row)) draw ≡ Some w
        → Settles n place height w (held s) }
{}

/// An access of an index that stands answers what its statement means for the rows of the index.
pub fn access_answers()
    ensures { (n place height draw : ℕ) (s : State Row) (ask : Ask) (w : Went Row)
        → length s.leaves ≡ n → Stands (row_key n place) height s
        → access (row_key n place) height s (op_of n ask) draw ≡ Some w
        → Answered n place ask (held s) w.got }
{}

/// An access of a table that is an index leaves the tables that SQL's meaning leaves, as bags, and the index stands.
pub fn access_settles()
    ensures { (draw : ℕ) (ts : Tables) (stmt : Stmt) (t : Stored Held) (ask : Ask) (w : Went Row)
        → keyed_table ts stmt ≡ Some t → ask_of t.heading stmt ≡ Some ask → IsIndexed t
        → FitsIndex t.heading.capacity (key_at t.heading.schema) ask (rows t.held.slots)
        → went draw t ask ≡ Some w
        → AccessSettles ts t w (accepted_next (database ts) stmt) }
{}

/// An access by a row whose key is there, or is none of the index, leaves the tables that there were, as bags, and the index
/// stands.
pub fn access_refused()
    ensures { (draw : ℕ) (ts : Tables) (stmt : Stmt) (t : Stored Held) (row : Row) (w : Went Row)
        → keyed_table ts stmt ≡ Some t → ask_of t.heading stmt ≡ Some (Put row) → IsIndexed t
        → IsNotPut t.heading.capacity (key_at t.heading.schema) row (rows t.held.slots)
        → went draw t (Put row) ≡ Some w → AccessSettles ts t w (database ts) }
{}
