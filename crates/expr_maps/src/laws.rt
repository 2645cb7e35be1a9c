//! Laws of the definitions.

ghost use Rattle.expr_maps.specs.Laws.{PutMeansAtImage, ReplacedMeansSame, ReductionsSplit};

/// With a map put in, an expression has at a point the values that it had at the point's image.
pub fn put_means_at_image()
    ensures { PutMeansAtImage }
{}

/// Where each access that is reached has the values of what replaces it, so has the expression.
pub fn replaced_means_same()
    ensures { ReplacedMeansSame }
{}

/// A reduction is what its operator gives of the points that a domain holds and of the others.
pub fn reductions_split()
    ensures { ReductionsSplit }
{}
