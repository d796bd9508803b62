ghost use Rattle.std.specs.Prelude.{◌≡◌, true, false, [], ◌∷◌};
ghost use Rattle.index_maps.specs.Maps.{globals_of, rank_count, maps_index, indices};
ghost use Rattle.index_maps.specs.WorkedMaps.{linear, permuted, split_in_three, sharing};

/// What a few small maps map.
pub fn maps_compute()
    ensures linear_globals { globals_of linear 0 ≡ 4 ∷ 5 ∷ 6 ∷ [] }
    ensures linear_past_the_ranks { globals_of linear 1 ≡ [] }
    ensures linear_maps { maps_index linear 6 ≡ true }
    ensures linear_ends { maps_index linear 7 ≡ false }

    ensures permuted_globals { globals_of permuted 0 ≡ 7 ∷ 2 ∷ 5 ∷ [] }
    ensures permuted_maps { maps_index permuted 5 ≡ true }
    ensures permuted_leaves_out { maps_index permuted 3 ≡ false }
    ensures permuted_ascending { indices permuted ≡ 2 ∷ 5 ∷ 7 ∷ [] }

    ensures split_ranks { rank_count split_in_three ≡ 3 }
    ensures split_first { globals_of split_in_three 0 ≡ 20 ∷ 21 ∷ 22 ∷ [] }
    ensures split_second { globals_of split_in_three 1 ≡ 23 ∷ 24 ∷ 25 ∷ [] }
    ensures split_last { globals_of split_in_three 2 ≡ 26 ∷ 27 ∷ 28 ∷ 29 ∷ [] }
    ensures split_past_the_ranks { maps_index split_in_three 30 ≡ false }

    ensures sharing_ranks { rank_count sharing ≡ 2 }
    ensures sharing_first { globals_of sharing 0 ≡ 0 ∷ 1 ∷ 2 ∷ [] }
    ensures sharing_second { globals_of sharing 1 ≡ 3 ∷ 2 ∷ [] }
    ensures sharing_once { indices sharing ≡ 0 ∷ 1 ∷ 2 ∷ 3 ∷ [] }
{}
