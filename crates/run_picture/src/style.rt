//! What stands in every picture: the classes, the patterns and the legend.

/// The classes: colour says who, shape says what.
pub(crate) const CLASSES: &[u8] =
    b"<style>.p0{fill:#DCE9F8}.m0{fill:#5698DF}.d0{fill:#1B5090}.k0{fill:url(#p0)}\n\
    .p1{fill:#FBE4CC}.m1{fill:#E67614}.d1{fill:#8A4600}.k1{fill:url(#p1)}\n\
    .p2{fill:#D8EFDC}.m2{fill:#4BA663}.d2{fill:#1C6530}.k2{fill:url(#p2)}\n\
    .p3{fill:#E8DFF5}.m3{fill:#A581DA}.d3{fill:#55318F}.k3{fill:url(#p3)}\n\
    .p4{fill:#F9DCE1}.m4{fill:#E57086}.d4{fill:#98203A}.k4{fill:url(#p4)}\n\
    .p5{fill:#CFEEEC}.m5{fill:#2EA4A0}.d5{fill:#0D5F5C}.k5{fill:url(#p5)}\n\
    .p6{fill:#EFEBC8}.m6{fill:#A59623}.d6{fill:#625800}.k6{fill:url(#p6)}\n\
    .p7{fill:#E8E2DD}.m7{fill:#A88C7A}.d7{fill:#5A463A}.k7{fill:url(#p7)}\n\
    text{fill:#1B1F24;font-size:11px}\n\
    .title{font-size:16px;font-weight:bold}\n\
    .second{fill:#57606A}\n\
    .odd{fill:#F3F5F7}.even{fill:#E1E6EB}.b{fill:url(#b)}.z{fill:#FFF}.r{fill:#C62828}.n{fill:#8C959F}.t{fill:#1B1F24}\n\
    path{fill:none}.c{fill:#C9D1DA;stroke:#33404F}.q{stroke:#A34A00;stroke-width:2}.s{stroke:#C62828;stroke-width:1.6}.g{stroke:#EEF1F4}\
    .f{stroke:#DDE2E8}.u{stroke:#E4E8EC}.o{stroke:#9AA4AF}.h{stroke:#33404F;stroke-dasharray:5 3}\n\
    .e,.x,.y,.l,.k{text-anchor:end}text.e{font-size:10px;fill:#57606A}text.y{font-size:10px;fill:#A34A00}text\
    .l{font-size:10px}text.k{font-size:8px}\n\
    text.n{font-size:10px;fill:#57606A;text-anchor:middle}text.w{font-weight:bold}text.v{font-size:10px;font-weight:bold}text\
    .a{font-size:9px}text.i{font-size:9px;fill:#FFF}text.j{font-size:7px;fill:#FFF}text.j.i{fill:#1B1F24}\n\
    text.d0{fill:#1B5090}\n\
    text.d1{fill:#8A4600}\n\
    text.d2{fill:#1C6530}\n\
    text.d3{fill:#55318F}\n\
    text.d4{fill:#98203A}\n\
    text.d5{fill:#0D5F5C}\n\
    text.d6{fill:#625800}\n\
    text.d7{fill:#5A463A}</style>\n";

/// The patterns of what is parked, in eight hues, and of what is blocked.
pub(crate) const PATTERNS: &[u8] =
    b"<defs><pattern id=\"p0\" width=\"5\" height=\"5\" patternUnits=\"userSpaceOnUse\" patternTransform=\"rotate(45)\">\
    <rect width=\"5\" height=\"5\" fill=\"#DCE9F8\"/><rect width=\"1.5\" height=\"5\" fill=\"#5698DF\"/></pattern>\n\
    <pattern id=\"p1\" width=\"5\" height=\"5\" patternUnits=\"userSpaceOnUse\" patternTransform=\"rotate(45)\">\
    <rect width=\"5\" height=\"5\" fill=\"#FBE4CC\"/><rect width=\"1.5\" height=\"5\" fill=\"#E67614\"/></pattern>\n\
    <pattern id=\"p2\" width=\"5\" height=\"5\" patternUnits=\"userSpaceOnUse\" patternTransform=\"rotate(45)\">\
    <rect width=\"5\" height=\"5\" fill=\"#D8EFDC\"/><rect width=\"1.5\" height=\"5\" fill=\"#4BA663\"/></pattern>\n\
    <pattern id=\"p3\" width=\"5\" height=\"5\" patternUnits=\"userSpaceOnUse\" patternTransform=\"rotate(45)\">\
    <rect width=\"5\" height=\"5\" fill=\"#E8DFF5\"/><rect width=\"1.5\" height=\"5\" fill=\"#A581DA\"/></pattern>\n\
    <pattern id=\"p4\" width=\"5\" height=\"5\" patternUnits=\"userSpaceOnUse\" patternTransform=\"rotate(45)\">\
    <rect width=\"5\" height=\"5\" fill=\"#F9DCE1\"/><rect width=\"1.5\" height=\"5\" fill=\"#E57086\"/></pattern>\n\
    <pattern id=\"p5\" width=\"5\" height=\"5\" patternUnits=\"userSpaceOnUse\" patternTransform=\"rotate(45)\">\
    <rect width=\"5\" height=\"5\" fill=\"#CFEEEC\"/><rect width=\"1.5\" height=\"5\" fill=\"#2EA4A0\"/></pattern>\n\
    <pattern id=\"p6\" width=\"5\" height=\"5\" patternUnits=\"userSpaceOnUse\" patternTransform=\"rotate(45)\">\
    <rect width=\"5\" height=\"5\" fill=\"#EFEBC8\"/><rect width=\"1.5\" height=\"5\" fill=\"#A59623\"/></pattern>\n\
    <pattern id=\"p7\" width=\"5\" height=\"5\" patternUnits=\"userSpaceOnUse\" patternTransform=\"rotate(45)\">\
    <rect width=\"5\" height=\"5\" fill=\"#E8E2DD\"/><rect width=\"1.5\" height=\"5\" fill=\"#A88C7A\"/></pattern>\n\
    <pattern id=\"b\" width=\"4\" height=\"4\" patternUnits=\"userSpaceOnUse\"><rect width=\"4\" height=\"4\" fill=\"#F1F2F4\"/>\
    <rect width=\"2\" height=\"2\" fill=\"#8C959F\"/><rect x=\"2\" y=\"2\" width=\"2\" height=\"2\" fill=\"#8C959F\"/>\
    </pattern></defs>\n";

/// The legend, in the hue of worker 0.
pub(crate) const LEGEND: &[u8] =
    b"<rect class=\"p0\" x=\"76\" y=\"55\" width=\"22\" height=\"12\"/>\n\
    <rect class=\"d0\" x=\"76\" y=\"55\" width=\"22\" height=\"1\"/>\n\
    <rect class=\"d0\" x=\"76\" y=\"55\" width=\"1\" height=\"12\"/>\n\
    <text x=\"103\" y=\"65\">task</text>\n\
    <rect class=\"m0\" x=\"145\" y=\"54\" width=\"22\" height=\"14\"/>\n\
    <text x=\"172\" y=\"65\">lease</text>\n\
    <rect class=\"m0\" x=\"221\" y=\"54\" width=\"22\" height=\"14\"/>\n\
    <rect class=\"d0\" x=\"221\" y=\"56\" width=\"22\" height=\"10\"/>\n\
    <text x=\"248\" y=\"65\">item</text>\n\
    <rect class=\"k0\" x=\"290\" y=\"54\" width=\"22\" height=\"14\"/>\n\
    <text x=\"317\" y=\"65\">parked</text>\n\
    <rect class=\"b\" x=\"373\" y=\"54\" width=\"22\" height=\"14\"/>\n\
    <text x=\"400\" y=\"65\">blocked</text>\n\
    <rect class=\"b\" x=\"463\" y=\"54\" width=\"22\" height=\"14\"/>\n\
    <rect class=\"d0\" x=\"463\" y=\"56\" width=\"22\" height=\"10\"/>\n\
    <rect class=\"z\" x=\"464\" y=\"57\" width=\"20\" height=\"8\"/>\n\
    <text x=\"490\" y=\"65\">fetch</text>\n\
    <rect class=\"d0\" x=\"539\" y=\"56\" width=\"22\" height=\"10\"/>\n\
    <rect class=\"z\" x=\"556\" y=\"56\" width=\"1\" height=\"10\"/>\n\
    <rect class=\"r\" x=\"557\" y=\"56\" width=\"4\" height=\"10\"/>\n\
    <text x=\"566\" y=\"65\">failed</text>\n\
    <rect class=\"n\" x=\"622\" y=\"55\" width=\"4\" height=\"12\"/>\n\
    <text x=\"631\" y=\"65\">skipped</text>\n\
    <rect class=\"m0\" x=\"694\" y=\"56\" width=\"22\" height=\"11\"/>\n\
    <rect class=\"d0\" x=\"694\" y=\"56\" width=\"1\" height=\"11\"/>\n\
    <text x=\"721\" y=\"65\">lock</text>\n\
    <rect class=\"m0\" x=\"763\" y=\"60\" width=\"22\" height=\"2\"/>\n\
    <text x=\"790\" y=\"65\">parked lock</text>\n\
    <rect class=\"t\" x=\"881\" y=\"63\" width=\"3\" height=\"3\"/>\n\
    <rect class=\"t\" x=\"889\" y=\"63\" width=\"3\" height=\"3\"/>\n\
    <text x=\"898\" y=\"65\">entry</text>\n\
    <path class=\"c\" d=\"M947 67V55H969V67\"/>\n\
    <text x=\"974\" y=\"65\">leases out</text>\n\
    <path class=\"q\" d=\"M1058 60H1080\"/>\n\
    <text x=\"1085\" y=\"65\">queued items</text>\n";
