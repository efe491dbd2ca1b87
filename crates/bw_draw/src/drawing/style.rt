//! How a drawing looks, in the light and in the dark.

/// The styles, and the heads of the arrows.
pub(crate) const STYLE: &str = "<style>
text { fill: #1d2733; font: 11px ui-monospace, SFMono-Regular, Menlo, Consolas, 'DejaVu Sans Mono', monospace; }
.name { font-weight: bold; }
.soft { fill: #5b6875; }
.warn { fill: #b3261e; }
.gone { fill: #5b6875; text-decoration: line-through; }
.middle { text-anchor: middle; }
.ground { fill: #ffffff; }
.page { fill: #f6f8fa; stroke: #8593a3; }
.half { fill: #fdeeed; stroke: #b3261e; stroke-width: 1.5; stroke-dasharray: 5 3; }
.base { fill: #dfe7f1; stroke: #8593a3; }
.change { fill: #fdf0d5; stroke: #b08a36; }
.shape { fill: #eae3fb; stroke: #7c63b8; }
.more { fill: none; stroke: #8593a3; stroke-dasharray: 2 3; }
.line { fill: none; stroke: #66788d; stroke-width: 1.2; }
.stub { fill: none; stroke: #66788d; stroke-width: 1.2; stroke-dasharray: 3 3; }
.term-head { fill: #66788d; }
.side { fill: none; stroke: #2c6e3c; stroke-width: 1.5; }
.side-head { fill: #2c6e3c; }
.coming { fill: none; stroke: #b3261e; stroke-width: 1.5; stroke-dasharray: 1.5 4; }
.going { fill: none; stroke: #b3261e; stroke-width: 1.5; }
@media (prefers-color-scheme: dark) {
text { fill: #e6ebf1; }
.soft { fill: #9aa8b6; }
.warn { fill: #ff8a80; }
.gone { fill: #9aa8b6; }
.ground { fill: #12171d; }
.page { fill: #1a212a; stroke: #66788d; }
.half { fill: #35191b; stroke: #ff8a80; }
.base { fill: #27364a; stroke: #66788d; }
.change { fill: #3a3018; stroke: #b8954a; }
.shape { fill: #2d2547; stroke: #9d86d8; }
.more { stroke: #66788d; }
.line { stroke: #8b9db3; }
.stub { stroke: #8b9db3; }
.term-head { fill: #8b9db3; }
.side { stroke: #7ec893; }
.side-head { fill: #7ec893; }
.coming { stroke: #ff8a80; }
.going { stroke: #ff8a80; }
}
</style>
<defs>
<marker id=\"side\" viewBox=\"0 0 10 10\" refX=\"9\" refY=\"5\" markerWidth=\"6\" markerHeight=\"6\" orient=\"auto\"><path class=\"side-head\" d=\"M0 0L10 5L0 10z\"/></marker>
<marker id=\"term\" viewBox=\"0 0 10 10\" refX=\"9\" refY=\"5\" markerWidth=\"6\" markerHeight=\"6\" orient=\"auto\"><path class=\"term-head\" d=\"M0 0L10 5L0 10z\"/></marker>
</defs>
";
