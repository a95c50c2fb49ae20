//! Laws about the machine. The functions answer nothing; their contracts are the laws.
ghost use Rattle.std.specs.Prelude.{◌≡◌, ℕ, List, [], length, Bool, Option, Some, IfSome};
ghost use Rattle.am_outside.specs.Files.{Files, Stands};
ghost use Rattle.am_session.specs.declared.request.Request.{Request};
ghost use Rattle.am_session.specs.Machine.{State, SameState, first_state, Runs, Replied, read_file};

/// Where files are told, the machine gives one list of replies to the same commands, and goes on to one state, but for
/// the order in which the two sets are listed; and so it does up to each place.
pub fn one_run()
    ensures whole { (stops : Bool) (files : Files) (asked : List Request) (replies others : List (List ℕ)) (end other : State)
        → Runs stops (first_state (Some files)) asked replies end [] → Runs stops (first_state (Some files)) asked others other [] → (replies ≡ others) × SameState end other }
    ensures front { (stops : Bool) (files : Files) (asked : List Request) (replies others : List (List ℕ)) (end other : State) (left more : List Request)
        → Runs stops (first_state (Some files)) asked replies end left → Runs stops (first_state (Some files)) asked others other more → length replies ≡ length others
        → (replies ≡ others) × SameState end other × (left ≡ more) }
{
    am_frame::one_reading();
    am_store::one_reading();
    am_delivery::listing_is_free();
    am_delivery::stays_stored();
    am_delivery::waiting_sorts_alike();
    am_laws::listing_is_free();
    am_laws::sorting_is_free();
    am_laws::valid_sets_keep_rules();
}

/// Where the file that a command reads is absent, or has these bytes, the machine has some reply to what is asked. The body
/// tells what the bytes spell.
pub fn some_answer(bytes: &[u8])
    ensures { (old : State) (asked : Request) (found : Option (List ℕ)) → IfSome found (λ file. file ≡ bytes.now)
        → IfSome (read_file asked) (λ name. Stands old.files name found) → Replied old asked }
{
    am_frame::some_reading(bytes);
    am_store::some_reading(bytes, true);
    am_store::some_reading(bytes, false);
}
