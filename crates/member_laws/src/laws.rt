//! Lists of members, and overriding. The function does nothing: its clause is the law.

ghost use Rattle.member_laws.specs.Overriding.{HasNoOverride};

/// A list of members has no two of which one overrides the other (SLS 5.1.3, 5.1.4).
pub fn law_no_override()
    ensures { HasNoOverride }
{}
