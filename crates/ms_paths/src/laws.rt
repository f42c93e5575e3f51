// The laws. Each is the contract of a function that does nothing.
ghost use Rattle.std.specs.Prelude.{◌∷◌, Contains, nat_eq, ◌≡◌, ℕ, List, Bool, IsTrue, ◌↔◌, take, ◌⊎◌, nat_lt, ◌<◌, ◌==◌, if◌then◌else◌};
ghost use Rattle.std.specs.List.{IsDistinct};
ghost use Rattle.ms_paths.specs.Flow.{HasEdge, IsOnEveryPath, IsOrder, BringsOne, but, in_place, Block, block_at, IsPath, IsReached, Event, Of, Phi, Entry, after, entered, last_event_at, Suffices, NeedsPhi, IsNeeded, IsAnswer, StandsOnce, StandsAt, StandsInOnePlace, IsReducible, IsClosed, IsRegion, IsForm, NoTrivialPhi, NoIdlePhi, LiesOnEvery, and_one, just, no_block};
ghost use Rattle.ms_paths.specs.Passed.{PassesAll, PassesFirst, either_of, either_start, beyond};
ghost use Rattle.ms_paths.specs.Walk.{IsDefining, IsResolved};
ghost use Rattle.ms_paths.specs.Edits.{less, for_def, SameEvents, either, new_enters, new_leaves, IsPut, IsPartOf};
ghost use Rattle.ms_paths.specs.Samples.{any_event, diamond, self_loop, nested, two_entries, one_or_two};

/// The blocks that need a phi suffice.
pub fn needed_suffice()
    ensures { (g : List Block) (E N : ℕ → Bool) → StandsOnce g → IsNeeded g E N → Suffices g E N }
{}

/// Whether a block needs a phi can be told.
pub fn needed_told()
    ensures { (g : List Block) (E : ℕ → Bool) → StandsOnce g → IsClosed g → (N : ℕ → Bool) × IsNeeded g E N }
{}

/// A reached point has one answer.
pub fn one_answer()
    ensures has { (g : List Block) (E : ℕ → Bool) → StandsOnce g → IsClosed g →
        (b k : ℕ) → IsReached g b → (e : Event) × IsAnswer g E b k e }
    ensures one { (g : List Block) (E : ℕ → Bool) (b k : ℕ) (d e : Event) →
        IsReached g b → IsAnswer g E b k d → IsAnswer g E b k e → d ≡ e }
{}

/// What needs a phi for some events needs one for more.
pub fn needed_more()
    ensures { (g : List Block) (D E : ℕ → Bool) → StandsOnce g → ((i : ℕ) → IsTrue (D i) → IsTrue (E i)) →
        (b : ℕ) → NeedsPhi g D b → NeedsPhi g E b }
{}

/// A form over a region of a reducible graph, in which no phi is idle, has its phis at the blocks that need one, and its accesses are the answers.
pub fn region_form()
    ensures phis { (g : List Block) (E Z phis : ℕ → Bool) (enters : ℕ → Event) (operand : ℕ → ℕ → Event) (leaves : ℕ → Event) →
        StandsOnce g → IsClosed g → IsReducible g → IsRegion g E Z → IsForm g E Z phis enters operand leaves →
        NoIdlePhi g E Z phis operand → (b : ℕ) → IsTrue (Z b) → IsTrue (phis b) ↔ NeedsPhi g E b }
    ensures accesses { (g : List Block) (E Z phis : ℕ → Bool) (enters : ℕ → Event) (operand : ℕ → ℕ → Event) (leaves : ℕ → Event) →
        StandsOnce g → IsClosed g → IsReducible g → IsRegion g E Z → IsForm g E Z phis enters operand leaves →
        NoIdlePhi g E Z phis operand → (b k : ℕ) → IsTrue (Z b) →
        IsAnswer g E b k (after E (take k (block_at g b).events) (entered phis b (enters b))) }
{}

/// The same where no phi is trivial.
pub fn settled_form()
    ensures { (g : List Block) (E Z phis : ℕ → Bool) (enters : ℕ → Event) (operand : ℕ → ℕ → Event) (leaves : ℕ → Event) →
        StandsOnce g → IsClosed g → IsReducible g → IsRegion g E Z → IsForm g E Z phis enters operand leaves →
        NoTrivialPhi g Z phis operand → (b : ℕ) → IsTrue (Z b) → IsTrue (phis b) ↔ NeedsPhi g E b }
{}

/// A form over all reached blocks of a reducible graph, with no trivial phi, has its phis at the blocks that need one.
pub fn whole_form()
    ensures { (g : List Block) (E Z phis : ℕ → Bool) (enters : ℕ → Event) (operand : ℕ → ℕ → Event) (leaves : ℕ → Event) →
        StandsOnce g → IsClosed g → IsReducible g → ((b : ℕ) → IsTrue (Z b) ↔ IsReached g b) →
        IsForm g E Z phis enters operand leaves → NoTrivialPhi g Z phis operand →
        (b : ℕ) → IsReached g b → IsTrue (phis b) ↔ NeedsPhi g E b }
{}

/// A phi that is the answer with one more instruction, which every path passes, is needed without that one.
pub fn needed_without()
    ensures { (g : List Block) (i : ℕ) (D E : ℕ → Bool) (b c k : ℕ) → StandsOnce g → IsClosed g →
        ((j : ℕ) → IsTrue (E j) → IsTrue (D j)) → IsReached g c → LiesOnEvery g i c k →
        IsAnswer g (and_one i E) c k (Phi b) → NeedsPhi g D b }
{}

/// Every path to a reached point passes an instruction exactly where that stands before the point in the same block, or in another block that
/// every path to the point passes.
pub fn lies_told()
    ensures own { (g : List Block) (q c j k : ℕ) → StandsInOnePlace g → StandsAt g q c j → IsReached g c → LiesOnEvery g q c k ↔ (j < k) }
    ensures other { (g : List Block) (q c j b k : ℕ) → StandsInOnePlace g → StandsAt g q c j → (b ≡ c → ⊥) →
        LiesOnEvery g q b k ↔ IsOnEveryPath g c b }
{}

/// Where every path to a point passes q, the answer for q and E is told by an answer for events that are those of E behind q, and anything
/// elsewhere: an instruction, or a phi, to which every path passes q stays, and all else is q.
pub fn answer_behind()
    ensures { (g : List Block) (q : ℕ) (E F X B : ℕ → Bool) (b k : ℕ) (e : Event) → StandsInOnePlace g → IsClosed g →
        ((i a n : ℕ) → IsReached g a → StandsAt g i a n → IsTrue (X i) ↔ LiesOnEvery g q a n) →
        ((a : ℕ) → IsReached g a → IsTrue (B a) ↔ LiesOnEvery g q a 0) →
        ((i : ℕ) → IsTrue (X i) → IsTrue (F i) ↔ IsTrue (E i)) →
        LiesOnEvery g q b k → IsAnswer g F b k e → IsAnswer g (and_one q E) b k (beyond X B q e) }
{}

/// Where every path to a point passes m, and every path to m passes x, no x stands between the last m and the point.
pub fn between()
    ensures { (g : List Block) (m x a j b k : ℕ) → StandsInOnePlace g → StandsAt g m a j → LiesOnEvery g m b k →
        LiesOnEvery g x a j → (p : List ℕ) → IsPath g b p → last_event_at g (and_one m (just x)) no_block b k p ≡ Of m }
{}

/// The same where the start of a block stands in place of an instruction: where every path to a point passes m, and each time before a path
/// comes to m it has passed x, no x lies between the last m and the point.
pub fn between_events()
    ensures { (g : List Block) (m x : Event) (b k : ℕ) → StandsInOnePlace g → IsClosed g → PassesAll g m b k → PassesFirst g x m →
        (p : List ℕ) → IsPath g b p → last_event_at g (either_of m x) (either_start m x) b k p ≡ m }
{}

/// Every path to a point passes the event that is the point's answer.
pub fn answer_is_passed()
    ensures { (g : List Block) (E : ℕ → Bool) (b k : ℕ) (e : Event) → IsAnswer g E b k e → PassesAll g e b k }
{}

/// Which blocks of small graphs need a phi.
pub fn samples()
    ensures diamond { (b : ℕ) → NeedsPhi diamond any_event b ↔ (b ≡ 3) }
    ensures diamond_by_its_form { (b : ℕ) → IsReached diamond b → IsTrue (just 3 b) ↔ NeedsPhi diamond any_event b }
    ensures self_loop { (b : ℕ) → NeedsPhi self_loop any_event b ↔ (b ≡ 1) }
    ensures nested { (b : ℕ) → NeedsPhi nested any_event b ↔ ((b ≡ 1) ⊎ (b ≡ 2)) }
    ensures nested_is_reducible { IsReducible nested }
{}

/// On a graph that is not reducible a form may have phis that no block needs, and none of them is trivial.
pub fn reducible_counts()
    ensures irreducible { IsReducible two_entries → ⊥ }
    ensures none_needed { (b : ℕ) → NeedsPhi two_entries any_event b → ⊥ }
    ensures form { IsForm two_entries any_event (λ b. nat_lt b 3) one_or_two (λ b. Entry)
        (λ b a. if a == 0 then Of 7 else Phi a) (λ a. if a == 0 then Of 7 else Phi a) }
    ensures none_trivial { NoTrivialPhi two_entries (λ b. nat_lt b 3) one_or_two (λ b a. if a == 0 then Of 7 else Phi a) }
{}

/// A walk over the accesses of a form for many events finds the answers for fewer.
pub fn walk_answers()
    ensures { (g : List Block) (D E R phis : ℕ → Bool) (enters : ℕ → Event) (operand : ℕ → ℕ → Event) (leaves defining : ℕ → Event)
        (seen : Event → Bool) (kept : ℕ → Bool) (leads : Event → Event) →
        ((b : ℕ) → IsTrue (R b) ↔ IsReached g b) → IsForm g D R phis enters operand leaves → IsDefining g D phis enters defining →
        IsResolved g D E phis operand defining seen kept leads → ((i : ℕ) → IsTrue (E i) → IsTrue (D i)) →
        StandsOnce g → IsClosed g → IsReducible g → (b k : ℕ) → IsReached g b →
        IsTrue (seen (after D (take k (block_at g b).events) (entered phis b (enters b)))) →
        IsAnswer g E b k (leads (after D (take k (block_at g b).events) (entered phis b (enters b)))) }
{}

/// Every path to a point passes the instruction that is the point's answer.
pub fn answer_lies_on_every()
    ensures { (g : List Block) (E : ℕ → Bool) (b k i : ℕ) → IsAnswer g E b k (Of i) → LiesOnEvery g i b k }
{}

/// A phi that brings itself or one other access can be left out, with that access in its place.
pub fn trivial_out()
    ensures { (g : List Block) (E Z phis : ℕ → Bool) (enters : ℕ → Event) (operand : ℕ → ℕ → Event) (leaves : ℕ → Event) (b : ℕ) (e : Event) →
        IsForm g E Z phis enters operand leaves → IsTrue (Z b) → IsTrue (phis b) → (e ≡ Phi b → ⊥) →
        BringsOne g operand b e →
        IsForm g E Z (but b phis) (λ x. in_place b e (if x == b then e else enters x)) (λ x a. in_place b e (operand x a)) (λ x. in_place b e (leaves x)) }
{}

/// What an order of the blocks tells of reducibility.
pub fn order_told()
    ensures holds { (g : List Block) (place : ℕ → ℕ) → IsOrder g place → IsReducible g }
    ensures back { (g : List Block) (a b : ℕ) (p : List ℕ) → IsReducible g → IsPath g a p → IsDistinct nat_eq (a ∷ p) → Contains (a ∷ p) b →
        HasEdge g a b → IsOnEveryPath g b a }
{}

/// An event can be left out of a form, with the access before it in its place, which is another.
pub fn def_out()
    ensures left_out { (g : List Block) (D Z phis : ℕ → Bool) (enters : ℕ → Event) (operand : ℕ → ℕ → Event) (leaves : ℕ → Event) (d b k : ℕ) (w : Event) →
        IsForm g D Z phis enters operand leaves → StandsInOnePlace g → StandsAt g d b k → IsTrue (D d) →
        w ≡ after D (take k (block_at g b).events) (entered phis b (enters b)) → (w ≡ Of d → ⊥) → IsTrue (Z b) →
        IsForm g (less d D) Z phis (λ x. for_def d w (enters x)) (λ x a. for_def d w (operand x a)) (λ x. for_def d w (leaves x)) }
    ensures another { (g : List Block) (D Z phis : ℕ → Bool) (enters : ℕ → Event) (operand : ℕ → ℕ → Event) (leaves : ℕ → Event) (d b k : ℕ) →
        IsRegion g D Z → IsForm g D Z phis enters operand leaves → StandsInOnePlace g → StandsAt g d b k → IsTrue (Z b) →
        after D (take k (block_at g b).events) (entered phis b (enters b)) ≡ Of d → ⊥ }
{}

/// Only the edges and the events count.
pub fn same_needs()
    ensures { (g h : List Block) (E : ℕ → Bool) → SameEvents g h E → (b : ℕ) → NeedsPhi g E b ↔ NeedsPhi h E b }
{}

/// A form takes one more event where the blocks that are now entered with another event have new accesses.
pub fn put_form()
    ensures { (g : List Block) (D R phis : ℕ → Bool) (enters : ℕ → Event) (operand : ℕ → ℕ → Event) (leaves : ℕ → Event) (d b : ℕ) (Z K : ℕ → Bool) (into : ℕ → Event) →
        ((x : ℕ) → IsReached g x → IsTrue (R x)) → IsForm g D R phis enters operand leaves → IsPut g D R phis enters leaves d b Z K into →
        StandsOnce g → Contains (block_at g b).events d →
        IsForm g (and_one d D) R (either phis K) (new_enters Z into enters)
        (λ x a. new_leaves g (and_one d D) (either phis K) (new_enters Z into enters) a) (new_leaves g (and_one d D) (either phis K) (new_enters Z into enters)) }
{}

/// A graph with fewer edges and the same events has the same form, over fewer blocks, and is reducible too.
pub fn part_form()
    ensures form { (h g : List Block) (D R Q phis : ℕ → Bool) (enters : ℕ → Event) (operand : ℕ → ℕ → Event) (leaves : ℕ → Event) →
        IsPartOf h g D → ((b : ℕ) → IsTrue (Q b) → IsTrue (R b)) → IsForm g D R phis enters operand leaves → IsForm h D Q phis enters operand leaves }
    ensures reducible { (h g : List Block) (D : ℕ → Bool) → IsPartOf h g D → IsReducible g → IsReducible h }
{}

/// Of two instructions on every path to a reached point one lies on every path to the other, and not both.
pub fn in_one_order()
    ensures one { (g : List Block) (m x a j c i b k : ℕ) → StandsInOnePlace g → StandsAt g m a j → StandsAt g x c i → (m ≡ x → ⊥) → IsReached g b →
        LiesOnEvery g m b k → LiesOnEvery g x b k → (LiesOnEvery g x a j → ⊥) → LiesOnEvery g m c i }
    ensures not_both { (g : List Block) (m x a j c i : ℕ) → StandsInOnePlace g → StandsAt g m a j → StandsAt g x c i → IsReached g a →
        LiesOnEvery g x a j → LiesOnEvery g m c i → ⊥ }
{}
