ghost use Rattle.std.specs.Prelude.{◌≡◌};
ghost use Rattle.ira_view.specs.Form.{json_form};

/// In which form an answer is told.
#[derive(Clone, Copy)]
pub enum Form {
    /// Lines and pages for a person.
    Words,
    /// JSON Lines.
    Json,
}

impl Form {
    /// JSON, where it is asked for.
    pub fn of_json(is_json: bool) -> Form
        ensures { result ≡ json_form is_json }
    {
        if is_json { Form::Json } else { Form::Words }
    }
}
