//! Laws of certificates, each proved because the contract of a function here names it.
ghost use Rattle.certificate_rules.specs.CertificateLaws.{ValidIsRight, TrueIsValid, FailingIsNotValid, FirstFailureIsOne};

/// What the rules of the checker imply, and what they ask no more than.
pub fn laws_of_certificates()
    ensures right { ValidIsRight }
    ensures valid { TrueIsValid }
    ensures not_valid { FailingIsNotValid }
    ensures one { FirstFailureIsOne }
{}
