// The laws above the definitions of turns, rows and prices.
ghost use Rattle.std.specs.Prelude.{◌≡◌, ℕ, List};
ghost use Rattle.price.specs.declared.senses.Sense.{Sense};
ghost use Rattle.task.specs.Graph.{Run};
ghost use Rattle.task.specs.Places.{Exist, coefficients_along, places_of, prices_along};
ghost use Rattle.task.specs.Rows.{Row, row_sum};
ghost use Rattle.task.specs.Turns.{block_turns, run_price, turns_in};
ghost use Rattle.task.specs.declared.edges.Edge.{Edge};

/// The theorem that sums over the edges or the blocks of a task go by the places of the run: the turns of a block, the sum of a row and the price.
pub fn sums_go_by_places()
    ensures blocks { (es : List Edge) (run : List ℕ) → Exist es run → (b : ℕ) → block_turns es (turns_in es run) b ≡ places_of es b run }
    ensures rows { (es : List Edge) (run : List ℕ) → Exist es run → (row : Row) → row_sum es row (turns_in es run) ≡ coefficients_along es row run }
    ensures prices { (sense : Sense) (es : List Edge) (run : List ℕ) → run_price sense es run ≡ prices_along sense es run }
    ensures runs { (es : List Edge) (run : List ℕ) → Run es run → Exist es run }
{}
