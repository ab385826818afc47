//! Laws of layers, each proved because the contract of the function here names it.
ghost use Rattle.layers.specs.Laws.{StableLayersStay, StableLossesStay};

/// What holds of the layers of every arena: where one round more changes none, no number of rounds does, neither those that
/// the agent needs to meet the goal nor those that the environment needs to break the duty. The function does nothing when it
/// runs.
pub fn laws_of_layers()
    ensures stable { StableLayersStay }
    ensures losses { StableLossesStay }
{}
