//! Specification files written by hand.

/// Specification files written by hand, each with what a reader is to make of it behind a `$`; between two of them stands an `@`.
pub const FILES: &[u8] = b"\
$missing inputs@\
inputs r\noutputs g\nfirst agent\ngoal G g\n$ltlf / agent / 1 / 1 / g,r / - / G g / 1024 / no / -@\
version 2\ninputs r\noutputs g\nfirst agent\ngoal G g\n$ltlf / agent / 1 / 1 / g,r / - / G g / 1024 / no / -@\
version 1\ninputs r\noutputs g\nfirst agent\ngoal G g\n$ltlf / agent / 1 / 1 / g,r / - / G g / 1024 / no / -@\
\x20version 2 \ninputs r\noutputs g\nfirst agent\ngoal G g\n$ltlf / agent / 1 / 1 / g,r / - / G g / 1024 / no / -@\
# note\n\n \t\nversion 2\ninputs r\noutputs g\nfirst agent\ngoal G g\n$ltlf / agent / 1 / 1 / g,r / - / G g / 1024 / no / -@\
inputs r\noutputs g\nfirst agent\ngoal G g\nversion 2\n$line 5: unknown key@\
version 2\nversion 2\ninputs r\noutputs g\nfirst agent\ngoal G g\n$line 2: repeated key@\
version 1\nversion 2\ninputs r\noutputs g\nfirst agent\ngoal G g\n$line 2: repeated key@\
version 3\ninputs r\noutputs g\nfirst agent\ngoal G g\n$line 1: bad value@\
version\ninputs r\noutputs g\nfirst agent\ngoal G g\n$line 1: bad value@\
version 2 2\ninputs r\noutputs g\nfirst agent\ngoal G g\n$line 1: bad value@\
inputs r\nversion 2\noutputs g\nfirst agent\ngoal g\n$line 2: unknown key@\
inputs r\noutputs g\nfirst agent\ngoal G g\nempty yes\n$line 5: unknown key@\
version 1\ninputs r\noutputs g\nfirst agent\ngoal G g\nempty yes\n$line 6: unknown key@\
version 2\ninputs r\noutputs g\nfirst agent\ngoal G g\nempty yes\n$ltlf / agent / 1 / 1 / g,r / - / G g / 1024 / yes / -@\
version 2\ninputs r\noutputs g\nfirst agent\ngoal G g\nempty no\n$ltlf / agent / 1 / 1 / g,r / - / G g / 1024 / no / -@\
version 2\ninputs r\noutputs g\nfirst agent\ngoal G g\nempty maybe\n$line 6: bad value@\
version 2\ninputs r\noutputs g\nfirst agent\ngoal G g\nempty\n$line 6: bad value@\
version 2\ninputs r\noutputs g\nfirst agent\ngoal G g\nempty yes\nempty yes\n$line 7: repeated key@\
inputs r\noutputs g\nfirst agent\ngoal G g\nduty r\n$line 5: unknown key@\
version 2\ninputs r\noutputs g\nfirst agent\ngoal G g\nduty r\n$ltlf / agent / 1 / 1 / g,r / - / G g / 1024 / no / r@\
version 2\ninputs r\noutputs g\nfirst agent\ngoal G g\nduty r\nduty g\n$ltlf / agent / 1 / 1 / g,r / - / G g / 1024 / no / (r & g)@\
version 2\ninputs r\noutputs g\nfirst agent\ngoal G g\ngoal F r\n$ltlf / agent / 1 / 1 / g,r / - / (G g & F r) / 1024 / no / -@\
inputs r\noutputs g\nfirst agent\ngoal G g\ngoal F r\n$line 5: repeated key@\
inputs r\noutputs g\nfirst agent\ngoal G g\nassume r\nassume g\n$line 6: repeated key@\
version 2\ninputs r\noutputs g\nfirst agent\ngoal G g\nassume r\nassume g\nassume r\n$ltlf / agent / 1 / 1 / g,r / (r & (g & r)) / G g / 1024 / no / -@\
version 2\ninputs r\noutputs g\nfirst agent\ngoal G g\ngoal r\ngoal g\n$ltlf / agent / 1 / 1 / g,r / - / (G g & (r & g)) / 1024 / no / -@\
inputs r\noutputs g\nfirst agent\ngoal G g\nlimit 1\n$ltlf / agent / 1 / 1 / g,r / - / G g / 1 / no / -@\
inputs r\noutputs g\nfirst agent\ngoal G g\nlimit 0\n$line 5: bad value@\
inputs r\noutputs g\nfirst agent\ngoal G g\nlimit 010\n$line 5: bad value@\
inputs r\noutputs g\nfirst agent\ngoal G g\nlimit 1024\n$ltlf / agent / 1 / 1 / g,r / - / G g / 1024 / no / -@\
inputs r\noutputs g\nfirst agent\ngoal G g\nlimit 1025\n$line 5: bad value@\
inputs r\noutputs g\nfirst agent\ngoal G g\nlimit 4096\n$line 5: bad value@\
version 2\ninputs r\noutputs g\nfirst agent\ngoal G g\nlimit 1025\n$ltlf / agent / 1 / 1 / g,r / - / G g / 1025 / no / -@\
version 2\ninputs r\noutputs g\nfirst agent\ngoal G g\nlimit 4096\n$ltlf / agent / 1 / 1 / g,r / - / G g / 4096 / no / -@\
version 2\ninputs r\noutputs g\nfirst agent\ngoal G g\nlimit 4097\n$line 6: bad value@\
inputs r\noutputs g\nfirst agent\ngoal G g\nlimit\n$line 5: bad value@\
inputs r\noutputs g\nfirst agent\ngoal G g\nlimit 1 2\n$line 5: bad value@\
inputs r\noutputs g\nfirst agent\ngoal G g\nlimit +5\n$line 5: bad value@\
inputs r\noutputs g\nfirst agent\ngoal G g\nlimit 12a\n$line 5: bad value@\
inputs r\noutputs g\nfirst agent\ngoal G g\nlimit 99999999999999999999\n$line 5: bad value@\
inputs r\noutputs g\nfirst agent\ngoal G g\nlimit 5\nlimit 5\n$line 6: repeated key@\
inputs r\noutputs g\nfirst agent\ngoal G g\nlimit 00\n$line 5: bad value@\
version 1\ninputs r\noutputs g\nfirst agent\ngoal G g\nlimit 2000\n$line 6: bad value@\
inputs r\noutputs g\nfirst agent\ngoal G g\nunknown\n$line 5: unknown key@\
inputs r\noutputs g\nfirst agent\ngoal G g\nGoal g\n$line 5: unknown key@\
inputs r\noutputs g\nfirst agent\ngoal G g\ngoals g\n$line 5: unknown key@\
inputs\noutputs\nfirst agent\ngoal true\n$ltlf / agent / 0 / 0 /  / - / true / 1024 / no / -@\
inputs\noutputs a b c\nfirst environment\ngoal a & c\n$ltlf / environment / 0 / 3 / a,b,c / - / (a & c) / 1024 / no / -@\
inputs a b\noutputs c d\nfirst environment\ngoal a & d\n$ltlf / environment / 2 / 2 / a,b,c,d / - / (a & d) / 1024 / no / -@\
inputs a b\noutputs c d\nfirst agent\ngoal a & d\n$ltlf / agent / 2 / 2 / c,d,a,b / - / (a & d) / 1024 / no / -@\
outputs c d\ninputs a b\nfirst agent\ngoal a & d\n$ltlf / agent / 2 / 2 / c,d,a,b / - / (a & d) / 1024 / no / -@\
inputs a a\noutputs c\nfirst agent\ngoal c\n$line 1: name given twice@\
inputs a\noutputs b a\nfirst agent\ngoal a\n$line 2: name given twice@\
inputs a X\noutputs b\nfirst agent\ngoal a\n$line 1: bad name@\
inputs 1a\noutputs b\nfirst agent\ngoal a\n$line 1: bad name@\
inputs a-b\noutputs b\nfirst agent\ngoal a\n$line 1: bad name@\
inputs a\noutputs true\nfirst agent\ngoal a\n$line 2: bad name@\
inputs W\noutputs a\nfirst agent\ngoal a\n$line 1: bad name@\
inputs nnnnnnnnnnnnnnnnnnnnnnnnnnnnnnnnnnnnnnnnnnnnnnnnnnnnnnnnnnnnnnnn\noutputs b\nfirst agent\ngoal b\n$ltlf / agent / 1 / 1 / b,nnnnnnnnnnnnnnnnnnnnnnnnnnnnnnnnnnnnnnnnnnnnnnnnnnnnnnnnnnnnnnnn / - / b / 1024 / no / -@\
inputs nnnnnnnnnnnnnnnnnnnnnnnnnnnnnnnnnnnnnnnnnnnnnnnnnnnnnnnnnnnnnnnnn\noutputs b\nfirst agent\ngoal b\n$line 1: bad name@\
inputs a\tb  c\noutputs \t d\nfirst\tagent\ngoal\td\n$ltlf / agent / 3 / 1 / d,a,b,c / - / d / 1024 / no / -@\
inputs a\noutputs b\nfirst Agent\ngoal b\n$line 3: bad value@\
inputs a\noutputs b\nfirst\ngoal b\n$line 3: bad value@\
inputs a\noutputs b\nfirst agent agent\ngoal b\n$line 3: bad value@\
outputs b\nfirst agent\ngoal b\n$missing inputs@\
inputs a\nfirst agent\ngoal a\n$missing outputs@\
inputs a\noutputs b\ngoal a\n$missing first@\
inputs a\noutputs b\nfirst agent\n$missing goal@\
first agent\n$missing inputs@\
goal a\n$missing inputs@\
inputs a\ngoal a\n$missing outputs@\
inputs r\noutputs g\nfirst agent\ngoal G g\ndialect ltlf\n$ltlf / agent / 1 / 1 / g,r / - / G g / 1024 / no / -@\
inputs r\noutputs g\nfirst agent\ngoal G g\ndialect ldlf\n$line 4: unexpected token at 6@\
inputs r\noutputs g\nfirst agent\ngoal <(true;true)*> end\ndialect ldlf\n$ldlf / agent / 1 / 1 / g,r / - / <(true ; true)*>[true]false / 1024 / no / -@\
inputs r\noutputs g\nfirst agent\ngoal G g\ndialect past\n$line 5: bad value@\
inputs r\noutputs g\nfirst agent\ngoal G g\ndialect\n$line 5: bad value@\
inputs r\noutputs g\nfirst agent\ngoal G g\ndialect ltlf\ndialect ltlf\n$line 6: repeated key@\
inputs r\noutputs g\nfirst agent\ngoal\n$line 4: unfinished@\
inputs r\noutputs g\nfirst agent\ngoal g &\n$line 4: unfinished@\
inputs r\noutputs g\nfirst agent\ngoal g g\n$line 4: unexpected token at 8@\
inputs r\noutputs g\nfirst agent\n   goal   g # r\n$line 4: bad byte at 13@\
inputs r\noutputs g\nfirst agent\ngoal x\n$line 4: undeclared name at 6@\
inputs r\noutputs g\nfirst agent\n \tgoal \t F(x)\n$line 4: undeclared name at 12@\
inputs r\noutputs g\nfirst agent\ngoal x\nassume y\n$line 5: undeclared name at 8@\
version 2\ninputs r\noutputs g\nfirst agent\nduty z\ngoal x\nassume y\n$line 7: undeclared name at 8@\
version 2\ninputs r\noutputs g\nfirst agent\nduty z\ngoal r\nassume r\n$line 5: undeclared name at 6@\
version 2\ninputs r\noutputs g\nfirst agent\ngoal r\ngoal x\nassume r\nassume y\n$line 8: undeclared name at 8@\
version 2\ninputs r\noutputs g\nfirst agent\nassume x\nlimit 0\n$line 6: bad value@\
inputs r\noutputs g\ngoal x\nfirst nobody\n$line 4: bad value@\
goal x\nfirst agent\noutputs g\n$missing inputs@\
goal x\ngoal x\n$line 2: repeated key@\
inputs r\r\noutputs g\r\nfirst agent\r\ngoal G g\r\n$ltlf / agent / 1 / 1 / g,r / - / G g / 1024 / no / -@\
inputs r\noutputs g\nfirst agent\ngoal G g$ltlf / agent / 1 / 1 / g,r / - / G g / 1024 / no / -@\
inputs r\noutputs g\nfirst agent\ngoal G g\r$line 4: bad byte at 9@\
inputs r\r\noutputs g\r\nfirst agent\r\ngoal g\r$line 4: bad byte at 7@\
inputs r\noutputs g\nfirst agent\ngoal g\r$line 4: bad byte at 7@\
inputs r\noutputs g \r\nfirst agent\ngoal g\n$ltlf / agent / 1 / 1 / g,r / - / g / 1024 / no / -@\
\r\ninputs r\noutputs g\nfirst agent\ngoal G g\n$ltlf / agent / 1 / 1 / g,r / - / G g / 1024 / no / -@\
inputs r\noutputs g\nfirst agent\ngoal G g\n # x\n#y\n\n$ltlf / agent / 1 / 1 / g,r / - / G g / 1024 / no / -@\
inputs r\noutputs g\nfirst agent\ngoal g#\n$line 4: bad byte at 7@\
inputs r#\noutputs g\nfirst agent\ngoal g\n$line 1: bad name@\
#inputs r\ninputs r\noutputs g\nfirst agent\ngoal G g\n$ltlf / agent / 1 / 1 / g,r / - / G g / 1024 / no / -@\
inputs r\noutputs g\nfirst agent\ngoal G g\n\x00\n$line 5: unknown key@\
inputs r\noutputs g\nfirst agent\ngoal \x80\n$line 4: bad byte at 6@\
inputs \xe4\noutputs g\nfirst agent\ngoal g\n$line 1: bad name@\
inputs r\noutputs g\nfirst agent\ngoal F x & y\nassume G(r -> z)\n$line 5: undeclared name at 15@\
inputs r\noutputs g\nfirst agent\ngoal g U\n$line 4: unfinished@\
inputs r\noutputs g\nfirst agent\ngoal [r] g\n$line 4: bad byte at 6@\
inputs r\noutputs g\nfirst agent\ndialect ldlf\ngoal [r] x\n$line 5: undeclared name at 10@\
inputs r\noutputs g\nfirst agent\ndialect ldlf\ngoal F r\n$line 5: unexpected token at 6@\
inputs i0 i1 i2 i3 i4 i5 i6 i7 i8 i9 i10 i11 i12 i13 i14 i15 i16 i17 i18 i19\noutputs o0 o1 o2 o3 o4 o5 o6 o7 o8 o9 o10 o11\nfirst agent\ngoal i19 & o11\n$ltlf / agent / 20 / 12 / o0,o1,o2,o3,o4,o5,o6,o7,o8,o9,o10,o11,i0,i1,i2,i3,i4,i5,i6,i7,i8,i9,i10,i11,i12,i13,i14,i15,i16,i17,i18,i19 / - / (i19 & o11) / 1024 / no / -@\
inputs i0 i1 i2 i3 i4 i5 i6 i7 i8 i9 i10 i11 i12 i13 i14 i15 i16 i17 i18 i19\noutputs o0 o1 o2 o3 o4 o5 o6 o7 o8 o9 o10 o11 o12\nfirst agent\ngoal i19\n$line 2: too many names@\
inputs i0 i1 i2 i3 i4 i5 i6 i7 i8 i9 i10 i11 i12 i13 i14 i15 i16 i17 i18 i19 i20 i21 i22 i23 i24 i25 i26 i27 i28 i29 i30 i31 i32\noutputs a\nfirst agent\ngoal a\n$line 1: too many names@\
outputs o0 o1 o2 o3 o4 o5 o6 o7 o8 o9 o10 o11 o12 o13 o14 o15 o16 o17 o18 o19 o20 o21 o22 o23 o24 o25 o26 o27 o28 o29 o30 o31\ninputs X\nfirst agent\ngoal o1\n$line 2: bad name@\
outputs o0 o1 o2 o3 o4 o5 o6 o7 o8 o9 o10 o11 o12 o13 o14 o15 o16 o17 o18 o19 o20 o21 o22 o23 o24 o25 o26 o27 o28 o29 o30 o31\ninputs o1\nfirst agent\ngoal o1\n$line 2: name given twice@\
outputs o0 o1 o2 o3 o4 o5 o6 o7 o8 o9 o10 o11 o12 o13 o14 o15 o16 o17 o18 o19 o20 o21 o22 o23 o24 o25 o26 o27 o28 o29 o30 o31\ninputs a\nfirst agent\ngoal o1\n$line 2: too many names@\
inputs a\noutputs b\nfirst agent\ninputs a\ngoal b\n$line 4: repeated key@\
inputs a\ninputs X\n$line 2: repeated key@\
duty a\ninputs 1\n$line 1: unknown key@\
version 2\ngoal a\ngoal a\nfirst x\n$line 4: bad value@\
assume r\ninputs r\noutputs g\nfirst agent\ngoal G g\n$ltlf / agent / 1 / 1 / g,r / r / G g / 1024 / no / -@\
limit 7\ninputs r\noutputs g\nfirst agent\ngoal G g\n$ltlf / agent / 1 / 1 / g,r / - / G g / 7 / no / -@\
inputs r\noutputs g\nfirst environment\nassume G F r\ngoal G(r -> F g)\nlimit 300\n$ltlf / environment / 1 / 1 / r,g / G F r / G (r -> F g) / 300 / no / -";
