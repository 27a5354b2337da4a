// The worked figures that are shown from the definitions.
ghost use Rattle.figures.specs.Figures.{Figures};

// Carries the statement; there is nothing to compute.
pub(crate) fn figures_hold()
    ensures { Figures }
{}
