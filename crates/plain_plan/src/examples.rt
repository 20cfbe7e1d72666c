// The sites of small programs.
ghost use Rattle.std.specs.Prelude.{◌≡◌, ◌∷◌, []};
ghost use Rattle.nim_meaning.specs.SiteExamples.{lending_acts, giving_acts, given_to_t_acts};
ghost use Rattle.nim_meaning.specs.SiteExamples.{covered_acts, maybe_joined_acts, literal_length_acts};
ghost use Rattle.nim_meaning.specs.Sites.{sites_in};

/// What is lent, given, declared, chosen, compared and joined, each at a site; and a literal, whose
/// length is read in place.
pub fn site_examples()
    ensures lent { sites_in lending_acts ≡ 12 ∷ [] }
    ensures given { sites_in giving_acts ≡ 2 ∷ [] }
    ensures declared { sites_in given_to_t_acts ≡ 2 ∷ [] }
    ensures chosen { sites_in covered_acts ≡ 7 ∷ 8 ∷ [] }
    ensures compared { sites_in maybe_joined_acts ≡ 4 ∷ 8 ∷ [] }
    ensures in_place { sites_in literal_length_acts ≡ [] }
{}
