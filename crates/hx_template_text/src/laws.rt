//! What the texts of templates tell. The calls do nothing; what they say stands in their contracts.

ghost use Rattle.std.specs.Prelude.{◌≡◌, ℕ, List};
ghost use Rattle.hx_text.specs.Grammars.{IsFaultyLine};
ghost use Rattle.hx_template_text.specs.declared.templates.Template.{Template as Claim};
ghost use Rattle.hx_template_text.specs.Templates.{IsTemplate, AreTemplateLines, template_text};

/// A text tells its template: two of them with the same text are the same.
pub fn text_tells_template()
    ensures { (a b : Claim) → IsTemplate a → IsTemplate b → template_text a ≡ template_text b
        → a ≡ b }
{}

/// Bytes have one faulty line at the most, as the text of a template.
pub fn one_faulty_line()
    ensures { (bytes : List ℕ) (a b : ℕ) → IsFaultyLine AreTemplateLines bytes a
        → IsFaultyLine AreTemplateLines bytes b → a ≡ b }
{}

/// The text of a template has no faulty line.
pub fn template_text_has_no_fault()
    ensures { (claim : Claim) (line : ℕ) → IsTemplate claim
        → IsFaultyLine AreTemplateLines (template_text claim) line → ⊥ }
{}
