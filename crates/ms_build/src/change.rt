// Changes of single entries that have their places.
ghost use Rattle.std.specs.Prelude.{◌≡◌, ◌≢◌, ◌↔◌, IsTrue, Some, None};
ghost use Rattle.ms_form.specs.Form.{HasEntry, HasList, users_of, without_user};
ghost use Rattle.ms_build.specs.Changes.{IsChanged, one_set};

use ms_form::{Access, Form, User};

/// The user names this access from now on.
pub fn link(form: &mut Form, u: User, to: Access)
    requires user { HasEntry form.old u }
    requires access { HasList form.old to }
    ensures changed { IsChanged (one_set u (Some to)) form.old form.new }
    ensures users { (x : Access) → x ≢ to → users_of form.new x ≡ without_user u (users_of form.old x) }
    ensures waiting { form.new.waiting ≡ form.old.waiting }
{
    form.uses();
    form.relink(u, to);
}

/// The user names no access from now on.
pub fn unlink(form: &mut Form, u: User)
    requires { HasEntry form.old u }
    ensures changed { IsChanged (one_set u None) form.old form.new }
    ensures waiting { form.new.waiting ≡ form.old.waiting }
{
    form.uses();
    form.clear(u);
}

/// Whether two accesses are one.
pub fn same_access(a: Access, b: Access) -> bool
    ensures { IsTrue result ↔ (a ≡ b) }
{
    a == b
}
