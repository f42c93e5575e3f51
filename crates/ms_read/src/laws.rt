// Laws of texts and drafts, each the contract of a function that does nothing.
ghost use Rattle.std.specs.Prelude.{◌≡◌, ◌≢◌, ℕ, ◌+◌, List, false, length};
ghost use Rattle.std.specs.List.{count_by};
ghost use Rattle.ms_grammar.specs.Kept.{Each};
ghost use Rattle.ms_grammar.specs.declared.line.Line.{Line};
ghost use Rattle.ms_read.specs.Draft.{IsDraft, IsModuleCause};
ghost use Rattle.ms_line.specs.declared.sort.Sort.{Sort};
ghost use Rattle.ms_line.specs.declared.sort.Sort.TheVariants.{Define};
ghost use Rattle.ms_read.specs.declared.place.Progress.{Progress};
ghost use Rattle.ms_read.specs.Places.{is_blank, is_inst, Lead};
ghost use Rattle.ms_read.specs.Shape.{IsModule, Walk, is_define, is_term, open_blocks};
ghost use Rattle.ms_read.specs.Told.{IsSaid, Rise, sorts_of, IsPlaced};
ghost use Rattle.ms_read.specs.declared.place.Place.TheVariants.{Outside};
ghost use Rattle.ms_read.specs.declared.fault.ReadFault.{ReadFault};
ghost use Rattle.ms_read.specs.declared.fault.ReadFault.TheVariants.{Memory};

/// A text is read as one draft at most, or refused for one cause at most, and never both. Want of memory is no cause.
pub fn one_draft()
    ensures draft { (bytes : List ℕ) (d e : List (ℕ × Line)) → IsDraft bytes d → IsDraft bytes e → d ≡ e }
    ensures cause { (bytes : List ℕ) (f g : ReadFault) → f ≢ Memory → g ≢ Memory → IsModuleCause bytes f → IsModuleCause bytes g → f ≡ g }
    ensures apart { (bytes : List ℕ) (d : List (ℕ × Line)) (f : ReadFault) → f ≢ Memory → IsDraft bytes d → IsModuleCause bytes f → ⊥ }
{}

/// What is known of each draft. Each of its lines is said by some row, within its limits, and has a token; the numbers
/// of the lines rise from 1 and are at most the number of the text's bytes; the lines alone, without those between
/// them, may stand behind one another, and are functions and lines outside functions.
pub fn draft_told()
    ensures lines { (bytes : List ℕ) (draft : List (ℕ × Line)) → IsDraft bytes draft → Each (λ entry. IsSaid entry.1) draft }
    ensures numbers { (bytes : List ℕ) (draft : List (ℕ × Line)) → IsDraft bytes draft → Rise 0 (length bytes) draft }
    ensures places { (bytes : List ℕ) (draft : List (ℕ × Line)) → IsDraft bytes draft → IsPlaced (sorts_of draft) }
    ensures shape { (bytes : List ℕ) (draft : List (ℕ × Line)) → IsDraft bytes draft → IsModule (sorts_of draft) }
{}

/// Where lines may stand, in one: lines with tokens may stand behind one another, from outside functions to outside
/// functions, exactly where they are functions and lines outside functions.
pub fn places_told()
    ensures shape { (sorts : List Sort) → Each (λ sort. is_blank sort ≡ false) sorts → Walk Outside sorts Outside → IsModule sorts }
    ensures walk { (sorts : List Sort) → IsModule sorts → Walk Outside sorts Outside }
{}

/// What is counted, in one: functions are define lines; behind a define line instructions are counted from it on, and
/// blocks are terminators, and one more in a block whose terminator is to come.
pub fn counts_told()
    ensures functions { (sorts : List Sort) (at end : Progress) → Lead at sorts end → end.functions ≡ at.functions + count_by is_define sorts }
    ensures insts { (sorts : List Sort) (at end : Progress) → Each (λ sort. sort ≢ Define) sorts → Lead at sorts end → end.insts ≡ at.insts + count_by is_inst sorts }
    ensures blocks { (sorts : List Sort) (at end : Progress) → Each (λ sort. sort ≢ Define) sorts → Lead at sorts end → end.blocks + open_blocks at.place ≡ at.blocks + count_by is_term sorts + open_blocks end.place }
{}
