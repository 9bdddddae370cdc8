//! What holds of the problems of bodies. Its functions do nothing: each states a law that is
//! proved.

ghost use Rattle.nll_problem.specs.Problem.{Problem, SameProblem};
ghost use Rattle.nll_body.specs.Bodies.{BodyText};
ghost use Rattle.nll_rules.specs.BodyProblem.{IsProblemOf};

/// States that a body has one problem at most.
pub fn one_problem()
    ensures { (body : BodyText) (problem other : Problem)
        → IsProblemOf body problem → IsProblemOf body other → SameProblem problem other }
{}
