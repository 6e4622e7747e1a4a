//! The forms of a plot.
ghost use Rattle.std.specs.Prelude.{◌≡◌, ◌<◌, ◌≤◌, length, OnOk, string_bytes};
ghost use Rattle.tlsf_map.specs.Told.{Adds};
ghost use Rattle.tlsf_picture.specs.plots.Plots as drawn;
ghost use Rattle.tlsf_picture.specs.plots.Told.{plot_told};
ghost use Rattle.tlsf_picture.specs.Steps.{IsMostPoints};

use crate::form::Form;
use crate::plots::chart::Chart;
use crate::plots::rows::write_text;
use crate::plots::svg::write_svg;
use std::alloc::{AllocError, Global};

/// The most points of a line in a form.
pub fn most_points(form: Form) -> usize
    ensures most { result ≡ drawn.most_points form }
    ensures range { IsMostPoints result }
{
    match form {
        Form::Svg => 2000,
        Form::Text => 56,
    }
}

/// Adds the plot of heaps in a form, at most eight.
pub fn write_plot(
    alloc: Global,
    text: &mut String,
    form: Form,
    charts: &[Chart],
) -> Result<(), AllocError>
    requires { length charts.now ≤ 8 }
    ensures { OnOk result (Adds (plot_told form charts.now) (string_bytes text.old) (string_bytes text.new)) }
{
    match form {
        Form::Svg => write_svg(alloc, text, charts),
        Form::Text => write_text(alloc, text, charts),
    }
}
