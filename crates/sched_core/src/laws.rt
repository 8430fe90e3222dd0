//! The laws on runs of events, each a clause of a function that does nothing.

ghost use Rattle.std.specs.Prelude.{◌≡◌, ℕ, ◌<◌, ◌≤◌, List, [], ◌∷◌, ◌++◌, length};
ghost use Rattle.sched_core.specs.declared.event.Event.{Event};
ghost use Rattle.sched_core.specs.declared.event.Event.TheVariants.{Take};
ghost use Rattle.sched_core.specs.Sums.{one_if};
ghost use Rattle.sched_core.specs.State.{State, IsEdge, callee, leaves, is_done, first};
ghost use Rattle.sched_core.specs.Events.{May, step};
ghost use Rattle.sched_core.specs.Sound.{Sound};
ghost use Rattle.sched_core.specs.Runs.{AreCallees, Allowed, after, times_done, IsSettled};

/// Does nothing. Its clauses say that the first state is sound, that each event that may come keeps a state sound, and
/// that a list of events goes on by one that may come after it.
pub fn each_event_keeps_soundness()
    ensures first { (callees : List (List ℕ)) → Sound (first callees) }
    ensures each { (s : State) (e : Event) → Sound s → May s e → Sound (step s e) }
    ensures further { (s : State) (es : List Event) (e : Event) → Allowed s es → May (after s es) e
        → Allowed s (es ++ e ∷ []) × (after s (es ++ e ∷ []) ≡ step (after s es) e) }
{}

/// Does nothing. Its clauses speak of every list of events each of which may come where it does, from the first state of
/// any lists of callees. The state after it is sound. A module is done at most once, so by one worker, and a state says
/// whether it was. A module is taken only after each of its callees was done. Where as many leaves as there are were
/// drawn, nothing is owed or taken, and every edge whose callee is done is reported, every module is done.
pub fn every_run_is_sound()
    ensures sound { (callees : List (List ℕ)) (es : List Event) → AreCallees callees → Allowed (first callees) es → Sound (after (first callees) es) }
    ensures once { (callees : List (List ℕ)) (es : List Event) (m : ℕ) → AreCallees callees → Allowed (first callees) es → times_done m es ≤ 1 }
    ensures told { (callees : List (List ℕ)) (es : List Event) (m : ℕ) → AreCallees callees → Allowed (first callees) es
        → one_if (is_done ((after (first callees) es).stage m)) ≡ times_done m es }
    ensures order { (callees : List (List ℕ)) (before rest : List Event) (w m i : ℕ) → AreCallees callees
        → Allowed (first callees) (before ++ Take w m ∷ rest) → IsEdge callees m i → times_done (callee callees m i) before ≡ 1 }
    ensures complete { (callees : List (List ℕ)) (es : List Event) (m : ℕ) → AreCallees callees → Allowed (first callees) es
        → length (leaves callees) ≤ (after (first callees) es).leaf → IsSettled (after (first callees) es)
        → m < length callees → times_done m es ≡ 1 }
{}
