//! What holds of all views.
ghost use Rattle.pip_view.specs.Agreement.{ViewAgrees};

/// What a description answers of its own files, the view answers too.
pub fn view_agrees()
    ensures { ViewAgrees }
{}
