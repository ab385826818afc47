//! What the choices for rows mean on an arena, proved because the contract of a function here names it.
ghost use Rattle.choosing.specs.ArenaRows.{RowChoicesAreChosen};

/// On an arena where the game goes on, the choice for a location's row is that for the decision. The function does nothing
/// when it runs.
pub fn laws_of_choices()
    ensures chosen { RowChoicesAreChosen }
{}
